mod examples;
mod hostile;
mod pages;
mod views;
