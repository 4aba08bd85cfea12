//! Values by their operators, expressions, scopes, and the shapes of small pages. Trees are built by hand, as the source
//! beside each spells them.

mod pages;
mod values;

use fizz_text::Text;
use jsx_syntax::{Expr, Name};
use serde_json::Value as Json;
use settle_script::{Value, value_of_json};
use sqlite_items::Items;
use std::alloc::Global;
use std::test::Fail;

fn json_value(alloc: Global, json: &str) -> Result<Value, Fail> {
    let json = Json::from_str(alloc, json)?;
    Ok(value_of_json(alloc, &json)?)
}

fn name(text: &'static str) -> Name {
    Name {
        text: Text::fixed(text),
        at: 0,
    }
}

fn text(text: &'static str) -> Expr {
    Expr::Text(Text::fixed(text))
}

fn pair(alloc: Global, first: Expr, second: Expr) -> Result<Items<Expr>, Fail> {
    let mut items = Items::new(alloc);
    items.push(first)?;
    items.push(second)?;
    Ok(items)
}
