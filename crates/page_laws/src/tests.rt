mod examples;
mod seen;
