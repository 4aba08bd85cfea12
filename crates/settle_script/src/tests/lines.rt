//! Scripts with their lines and settlements, and values.

use super::{check_value, is_known, join, script};
use crate::{Event, Value, value_of_json};
use serde_json::Value as Json;
use std::test::Fail;

/// JSON with its value.
static VALUES: [(&str, &str); 12] = [
    ("null", "null"),
    ("true", "true"),
    ("false", "false"),
    ("0", "0"),
    ("-5", "-5"),
    ("9223372036854775807", "9223372036854775807"),
    ("-9223372036854775808", "-9223372036854775808"),
    ("\"\"", ""),
    ("\"Gr\\u00fc\\u00dfe \\n\"", "Grüße \n"),
    ("[]", "list"),
    ("{}", "record"),
    ("{\"a\":1,\"a\":[]}", "record"),
];

#[test]
fn values(rt: HostRuntime) -> Result<(), Fail> {
    for (json, shown) in VALUES.iter() {
        check_value(&rt, rt.alloc(), json, shown)?;
    }
    Ok(())
}

/// Members ascend by their names, and the last of one name counts.
#[test]
fn members_in_order(rt: HostRuntime) -> Result<(), Fail> {
    let alloc = rt.alloc();
    let json = Json::from_str(alloc, "{\"b\":1,\"a\":2,\"ab\":3,\"b\":4}")?;
    let value = value_of_json(alloc, &json)?.copy(alloc)?;
    let Value::Record(members) = value else {
        assert!(rt; false, "no record");
        return Ok(());
    };
    assert_eq!(rt; members.len(), 3);
    let expected = [("a", 2i64), ("ab", 3), ("b", 4)];
    for (member, (name, number)) in members.as_slice().iter().zip(expected.iter()) {
        assert_eq!(rt; member.name.as_str(), *name);
        assert!(rt;
            matches!(&member.value, Value::Int(n) if n == number),
            "a member"
        );
    }
    Ok(())
}

#[test]
fn each_line(rt: HostRuntime) -> Result<(), Fail> {
    let script = script(
        rt.alloc(),
        " [ {\"resolve\":\"a\",\"value\":7}, {\"digest\":\"d\",\"reject\":\"b\"}, {\"work\":0}, {\"flush\":4294967295}, {\"work\":1,\"work\":2} ] ",
    )?;
    let events = script.events();
    assert_eq!(rt; events.len(), 5);
    assert!(rt;
        matches!(&events[0], Event::Resolve { name, value: Value::Int(7) } if name.as_str() == "a"),
        "resolve"
    );
    assert!(rt;
        matches!(&events[1], Event::Reject { name, digest } if name.as_str() == "b" && digest.as_str() == "d"),
        "reject"
    );
    assert!(rt; matches!(&events[2], Event::Work { count: 0 }), "work");
    assert!(rt;
        matches!(
            &events[3],
            Event::Flush {
                budget: 4_294_967_295
            }
        ),
        "flush"
    );
    assert!(rt; matches!(&events[4], Event::Work { count: 2 }), "work");
    Ok(())
}

#[test]
fn an_empty_script(rt: HostRuntime) -> Result<(), Fail> {
    let script = script(rt.alloc(), "[]")?;
    assert_eq!(rt; script.events().len(), 0);
    assert_eq!(rt; script.outcomes().len(), 0);
    Ok(())
}

/// An outcome is known from its own settlement on, and joined lists go on counting.
#[test]
fn settlements(rt: HostRuntime) -> Result<(), Fail> {
    let alloc = rt.alloc();
    let first = script(
        alloc,
        "[{\"resolve\":\"b\",\"value\":\"x\"},{\"work\":0},{\"reject\":\"a\",\"digest\":\"d\"}]",
    )?;
    let later = script(alloc, "[{\"resolve\":\"\",\"value\":true}]")?;
    let known = first.outcomes();
    assert_eq!(rt; known.len(), 2);
    assert!(rt;
        is_known(known, "b", 0, None) && is_known(known, "b", 1, Some("x")),
        "b"
    );
    assert!(rt;
        is_known(known, "a", 1, None) && is_known(known, "a", 2, Some("d")),
        "a"
    );
    assert!(rt;
        is_known(known, "a", 9, Some("d")) && is_known(known, "c", 9, None),
        "c"
    );
    let Ok(all) = join(alloc, known, later.outcomes()) else {
        assert!(rt; false, "not joined");
        return Ok(());
    };
    assert_eq!(rt; all.len(), 3);
    assert!(rt;
        is_known(&all, "b", 3, Some("x")) && is_known(&all, "", 2, None),
        "b"
    );
    assert!(rt; is_known(&all, "", 3, Some("true")), "the empty name");
    Ok(())
}
