// Asks of the payloads that stand in its standard input, a kind and a payload to a line with a tab between, whether the kind
// takes them, with the sets of the home book. Payloads that are no text of one line have names between angle brackets.
#![tactic(auto)]

use books::Home;
use kinds::{Content, takes};
use model::Kind;
use std::io;
use std::io::{BufRead, BufReader};

// The kind of a name. A function, since a crate gives `FromStr` to no type of another.
fn kind_named(name: &str) -> Option<Kind> {
    match name {
        "nothing" => Some(Kind::Nothing),
        "text" => Some(Kind::Text),
        "flag" => Some(Kind::Flag),
        "integer" => Some(Kind::Integer),
        "word0" => Some(Kind::Word(0)),
        "word1" => Some(Kind::Word(1)),
        "word2" => Some(Kind::Word(2)),
        "words0" => Some(Kind::Words(0)),
        "words1" => Some(Kind::Words(1)),
        "words2" => Some(Kind::Words(2)),
        "texts" => Some(Kind::Texts),
        "date" => Some(Kind::Date),
        "period" => Some(Kind::Period),
        "exact" => Some(Kind::Exact),
        "time" => Some(Kind::Time),
        "age" => Some(Kind::Age),
        "name" => Some(Kind::Name),
        "version" => Some(Kind::Version),
        "pointer" => Some(Kind::Pointer(1)),
        "anything" => Some(Kind::Anything),
        _ => None,
    }
}

fn content(payload: &str) -> Content<'_> {
    match payload {
        "<none>" => Content::Nothing,
        "<void>" => Content::Void,
        "<pointer>" => Content::Pointer(b"@I1@"),
        "<lines>" => Content::Lines,
        text => Content::Line(text.as_bytes()),
    }
}

fn answer(case: &str) -> &'static str {
    let Some((name, payload)) = case.split_once('\t') else {
        return "no case:";
    };
    match kind_named(name) {
        Some(kind) => if takes(&Home, kind, content(payload)) {
            "taken"
        } else {
            "refused"
        },
        None => "no kind:",
    }
}

fn main(rt: HostRuntime) -> io::Result<()> {
    for case in BufReader::new(rt.alloc(), rt.stdin())?.lines(rt.alloc()) {
        let case = case?;
        let answer = answer(case.as_str());
        println!(rt; "{answer} {case}")?;
    }
    Ok(())
}
