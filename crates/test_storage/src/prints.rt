//! How texts, lists, calls, answers and errors print.

use crate::values::check;
use metrics::{Answer, Call, Items, Refused, Text, Update};
use std::alloc::{AllocError, Global};
use std::fmt::{Debug, Display};
use std::process::Abort;

const MEMORY: &str = "out of memory";

fn expect_debugged<T: Debug>(rt: &impl Abort, alloc: Global, value: &T, wanted: &str) {
    let printed = format!(in alloc; "{value:?}").expect(rt, MEMORY);
    check(rt, printed.as_str() == wanted);
    drop(printed);
}

fn expect_printed<T: Display>(rt: &impl Abort, alloc: Global, value: &T, wanted: &str) {
    let printed = format!(in alloc; "{value}").expect(rt, MEMORY);
    check(rt, printed.as_str() == wanted);
    drop(printed);
}

#[test]
fn texts_print_and_give_their_strings_back(rt: HostRuntime) {
    let alloc = rt.alloc();
    let text = Text::from(String::from_str(alloc, "é").expect(&rt, MEMORY));
    expect_printed(&rt, alloc, &text, "é");
    expect_debugged(&rt, alloc, &text, "\"é\"");
    let text = text.into_string();
    check(&rt, text.as_str() == "é");
    drop(text);
}

#[test]
fn lists_print(rt: HostRuntime) {
    let alloc = rt.alloc();
    let items = Items::from(Vec::from_array(alloc, [3i64, -1]).expect(&rt, MEMORY));
    expect_debugged(&rt, alloc, &items, "[3, -1]");
    drop(items);
}

#[test]
fn refusals_say_why(rt: HostRuntime) {
    for (refused, text) in [
        (Refused::Memory { acted: 2 }, "memory, acted 2"),
        (Refused::NoSuchAddress, "no such address"),
        (Refused::NoSuchBook, "no such book"),
        (Refused::BadHandle, "bad handle"),
    ] {
        expect_printed(&rt, rt.alloc(), &refused, text);
    }
    check(
        &rt,
        Refused::from(AllocError) == Refused::Memory { acted: 0 },
    );
}

#[test]
fn calls_and_answers_print(rt: HostRuntime) {
    let call = Call::Update(3, Update::Increment(2));
    expect_debugged(&rt, rt.alloc(), &call, "Update(3, Increment(2))");
    let answer = Answer::Refused(Refused::Memory { acted: 1 });
    let wanted = "Refused(Memory { acted: 1 })";
    expect_debugged(&rt, rt.alloc(), &answer, wanted);
    drop(answer);
    drop(call);
}
