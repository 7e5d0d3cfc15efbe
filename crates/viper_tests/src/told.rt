// Ends and events, as the rows of the tables write them.
use std::alloc::Global;
use std::test::Fail;
use vb_value::{Content, Frac, Value};
use viper_inhale::Step;
use viper_state::{Event, Feed};

/// `1/2`.
fn fraction(alloc: Global, amount: Frac) -> Result<String, Fail> {
    let (num, den) = (Frac::num(amount), Frac::den(amount));
    Ok(format!(in alloc; "{num}/{den}")?)
}

/// `7`, `true`, `#1` or `1/2`.
fn value(alloc: Global, value: Value) -> Result<String, Fail> {
    Ok(match value {
        Value::Int(number) => format!(in alloc; "{number}")?,
        Value::Bool(truth) => format!(in alloc; "{truth}")?,
        Value::Ref(reference) => format!(in alloc; "#{reference}")?,
        Value::Perm(amount) => fraction(alloc, amount)?,
    })
}

/// A content, with its pairs in parentheses.
fn content(alloc: Global, tree: &Content) -> Result<String, Fail> {
    Ok(match tree {
        Content::Unit => "_".to_string(alloc)?,
        Content::Leaf(leaf) => value(alloc, *leaf)?,
        Content::Pair(left, right) => {
            let left = content(alloc, left)?;
            let right = content(alloc, right)?;
            format!(in alloc; "({left}&{right})")?
        }
    })
}

/// A pair that was opened, the value of a place that was, or what was chosen.
fn event(alloc: Global, event: &Event) -> Result<String, Fail> {
    Ok(match event {
        Event::Split(left, right) => {
            let left = content(alloc, left)?;
            let right = content(alloc, right)?;
            format!(in alloc; "({left}&{right})")?
        }
        Event::Leaf(leaf) => value(alloc, *leaf)?,
        Event::Wild(amount) => fraction(alloc, *amount)?,
        Event::Whole(_) => "memo".to_string(alloc)?,
        Event::Branch(truth) => format!(in alloc; "branch {truth}")?,
        _ => "another event".to_string(alloc)?,
    })
}

/// An end and what was recorded after the first event, with a `;` before it.
fn recorded(alloc: Global, end: String, feed: &Feed) -> Result<String, Fail> {
    let mut text = end;
    for i in 1..feed.events.len() {
        text.push_str(if i == 1 { " ; " } else { " " })?;
        text.push_str(event(alloc, &feed.events[i])?.as_str())?;
    }
    Ok(text)
}

/// An end, how many choices are left, and what was recorded.
pub fn with_choices(alloc: Global, end: String, feed: &Feed) -> Result<String, Fail> {
    let left = feed.choices.len().saturating_sub(feed.next);
    recorded(alloc, format!(in alloc; "{end}, {left} left")?, feed)
}

/// How a step of a run ended.
pub fn stepped(alloc: Global, end: Step) -> Result<String, Fail> {
    Ok(match end {
        Step::Goes => "goes".to_string(alloc)?,
        Step::Fails(label) => format!(in alloc; "{label}")?,
        Step::Blocked => "blocked".to_string(alloc)?,
        Step::Short => "short".to_string(alloc)?,
        Step::Over(at) => format!(in alloc; "over {at}")?,
    })
}
