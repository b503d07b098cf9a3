//! Texts of images: worked ones, broken ones, and other spellings.

use super::judges;
use super::phrase::{Phrase, place};
use judge::{Judge, Start};
use redomail::Layout;
use rmecore::{Own, Refusal};
use rmeworld::image::rules::{find_in, layout, word};
use rmeworld::{DataWords, Image, Owns, first_rule, read_image, start_of, widen, write_image};
use std::alloc::{AllocError, Global};
use test_support::text::cut;

/// One process inside, and an empty mailbox.
const SMALLEST: &str =
    "{\"cap\":1,\"data\":[0,0,0,0,0,0,0,0,0,0,0,0,0,0,0],\"limit\":10,\"lock\":[[0,1,1]],\"version\":2,\"width\":1}\n";

/// One process that crashed after its commit.
const TORN: &str =
    "{\"cap\":2,\"data\":[0,0,0,1,0,1,77,0,0,0,0,0,0,0,0,0,0,0],\"limit\":10,\"lock\":[[0,1,1]],\"version\":2,\"width\":1}\n";

/// The image above with values of two words.
const WIDENED_TORN: &str =
    "{\"cap\":2,\"data\":[0,0,0,1,0,1,77,0,0,0,0,0,0,0,0,0,0,0,0,0,0],\"limit\":10,\"lock\":[[0,1,1]],\"version\":2,\"width\":2}\n";

/// One process that crashed after its commit of three words.
const WIDE_TORN: &str =
    "{\"cap\":1,\"data\":[0,0,0,1,0,1,7,8,9,0,0,0,0,0,0,0,0,0,0],\"limit\":10,\"lock\":[[0,1,1]],\"version\":2,\"width\":3}\n";

/// A message that is shown, its record still armed, and words on the board.
const SHOWN: &str =
    "{\"cap\":1,\"data\":[0,0,1,1,0,1,77,5,6,7,8,1,0,1,77],\"limit\":10,\"lock\":[[0,1,1]],\"version\":2,\"width\":1}\n";

const WIDENED_SHOWN: &str =
    "{\"cap\":1,\"data\":[0,0,1,1,0,1,77,0,0,5,6,7,8,1,0,1,77,0,0],\"limit\":10,\"lock\":[[0,1,1]],\"version\":2,\"width\":3}\n";

/// The members in another order, with white space.
const SPACED: &str =
    " { \"width\" : 1 , \"version\":2,\"lock\":[ [0,1,1] ],\"limit\":10,\"data\":[0,0,0,0,0,0,0,0,0,0,0,0,0,0,0],\"cap\":1}\r\n";

/// Version 1.
const OLDER: &str =
    "{\"cap\":1,\"data\":[0,0,0,0,0,0,0,0,0,0,0,0,0,0,0],\"limit\":10,\"lock\":[[0,1,1]],\"version\":1}";

/// A member twice.
const TWICE: &str =
    "{\"cap\":7,\"cap\":1,\"data\":[0,0,0,0,0,0,0,0,0,0,0,0,0,0,0],\"limit\":10,\"lock\":[[0,1,1]],\"version\":2,\"width\":1}";

/// A member's name with an escape.
const ESCAPED: &str =
    "{\"c\\u0061p\":1,\"data\":[0,0,0,0,0,0,0,0,0,0,0,0,0,0,0],\"limit\":10,\"lock\":[[0,1,1]],\"version\":2,\"width\":1}";

/// Four processes: one in the doorway, two ready and one out. The mailbox is closed and the lock is ruined.
const FOUR: &str =
    "{\"cap\":1,\"data\":[1,1,0,0,0,0,0,0,0,0,0,0,0,0,0,0,0,0],\"limit\":10,\"lock\":[[1,0,0],[0,5,0],[1,3,0],[0,0,1]],\"version\":2,\"width\":1}";

/// The text with this name.
fn text_of(name: &str) -> &'static str {
    let names =
        "smallest|torn|widened-torn|wide-torn|shown|widened-shown|spaced|older|twice|escaped|four";
    match place(names, name) {
        Some(0) => SMALLEST,
        Some(1) => TORN,
        Some(2) => WIDENED_TORN,
        Some(3) => WIDE_TORN,
        Some(4) => SHOWN,
        Some(5) => WIDENED_SHOWN,
        Some(6) => SPACED,
        Some(7) => OLDER,
        Some(8) => TWICE,
        Some(9) => ESCAPED,
        Some(_) => FOUR,
        None => "",
    }
}

/// Whether the image is written as this text.
pub fn is_written(alloc: Global, image: &Image, text: &[u8]) -> bool {
    match write_image(alloc, image) {
        Ok(written) => written.as_slice() == text,
        Err(_) => false,
    }
}

/// Whether the image, widened, is this text. Without one, widening it is refused.
fn is_widened(alloc: Global, image: &Image, width: u64, text: &str) -> bool {
    match widen(alloc, image, width) {
        Ok(wider) => is_written(alloc, &wider, text.as_bytes()),
        Err(refusal) => text.is_empty() && refusal == Refusal::BadWidth,
    }
}

/// Whether two starts are the same in all fields.
fn is_same(start: &Start, other: &Start) -> bool {
    start.procs == other.procs
        && start.cap == other.cap
        && start.phases.as_slice() == other.phases.as_slice()
        && start.ahead.as_slice() == other.ahead.as_slice()
        && start.shown.as_slice() == other.shown.as_slice()
        && start.pending == other.pending
        && start.closed == other.closed
        && start.ruined == other.ruined
}

/// Whether the start of the image is this one, and a judge can start from it.
fn starts_from(alloc: Global, image: &Image, wanted: &Start) -> bool {
    match start_of(alloc, image) {
        Ok(start) => is_same(&start, wanted) && Judge::from_start(alloc, &start).is_ok(),
        Err(_) => false,
    }
}

/// Whether the start of the image is the one in the text, and a judge can start from it.
fn starts_as(alloc: Global, image: &Image, text: &str) -> bool {
    match judges::start_of(alloc, text) {
        Ok(wanted) => starts_from(alloc, image, &wanted),
        Err(_) => false,
    }
}

/// Whether the rules' functions give the sizes, the data words, 0 past the end, and the process inside, if there is one.
fn is_seen(image: &Image) -> bool {
    let one = Layout {
        procs: 1,
        cap: 1,
        width: 1,
    };
    let words = image.cells.as_slice();
    let nobody: [Own; 0] = [];
    layout(image) == one
        && word(words, 7) == 5
        && word(words, 15) == 0
        && find_in(image.lock.as_slice()) == Some(0)
        && find_in(&nobody) == None
}

/// Whether the image is as the text asks.
fn is_so(alloc: Global, image: &Image, asked: &str) -> bool {
    let phrase = Phrase::read(asked);
    match place("written|widened|start|seen", phrase.word) {
        Some(0) => is_written(alloc, image, text_of(phrase.rest).as_bytes()),
        Some(1) => is_widened(alloc, image, phrase.number(0), text_of(phrase.rest)),
        Some(2) => starts_as(alloc, image, phrase.rest),
        Some(_) => is_seen(image),
        None => false,
    }
}

/// A row of a text, by its name, and what its image is: written as this text, widened to this width and written, without a
/// text refused, or with this start.
pub fn holds(alloc: Global, row: &str) -> bool {
    let mut rest = row;
    match read_image(alloc, text_of(cut(&mut rest, ": ")).as_bytes()) {
        Ok(image) => is_so(alloc, &image, rest),
        Err(_) => false,
    }
}

/// The rule that a text breaks. 98: out of memory.
fn rule_of(alloc: Global, text: &[u8]) -> Option<u64> {
    match read_image(alloc, text) {
        Ok(_) => None,
        Err(Refusal::BadImage { rule }) => Some(rule),
        Err(_) => Some(98),
    }
}

/// A row of a rule, and the text that breaks it, after this head. Rule 0: the text breaks none.
pub fn breaks_rule(alloc: Global, head: &str, row: &str) -> bool {
    let mut members = row;
    let rule = cut(&mut members, " ").parse::<u64>();
    let mut text = Vec::new(alloc);
    text.extend_from_slice(head.as_bytes()).is_ok()
        && text.extend_from_slice(members.as_bytes()).is_ok()
        && rule.is_ok()
        && rule_of(alloc, &text).unwrap_or(0) == rule.unwrap_or(99)
}

/// A capacity, data words and a limit that break no rule.
pub const HEAD: &str = "{\"cap\":1,\"data\":[0,0,0,0,0,0,0,0,0,0,0,0,0,0,0],\"limit\":10,";

/// Writes the image of *smallest* with this number of data words.
fn put_data(text: &mut Vec<u8>, count: u64) -> Result<(), AllocError> {
    text.extend_from_slice(b"{\"cap\":1,\"data\":[0")?;
    for _ in 1..count {
        text.extend_from_slice(b",0")?;
    }
    text.extend_from_slice(b"],\"limit\":10,\"lock\":[[0,1,1]],\"version\":2,\"width\":1}\n")
}

/// Whether each prefix of the text breaks rule 1, but the one without the last byte, the line feed, which breaks none.
fn are_beginnings(alloc: Global, text: &[u8]) -> bool {
    for end in 0..text.len() {
        let rule = if end + 1 == text.len() { None } else { Some(1) };
        if rule_of(alloc, &text[..end]) != rule {
            return false;
        }
    }
    true
}

/// Beginnings, a text of 1,000 bytes, one with 200,000 data words, and one that is not UTF-8.
pub fn beginnings(alloc: Global) -> bool {
    let mut text = Vec::new(alloc);
    put_data(&mut text, 200_000).is_ok()
        && rule_of(alloc, &text) == Some(4)
        && rule_of(alloc, &[b'['; 1000]) == Some(1)
        && rule_of(alloc, b"{\"cap\xff\":1}") == Some(1)
        && are_beginnings(alloc, SMALLEST.as_bytes())
}

/// An image of one process inside, with the data words of width 1.
fn by_hand(alloc: Global, version: u64, width: u64) -> Result<Image, Refusal> {
    let inside = Own {
        choosing: 0,
        number: 1,
        inside: 1,
    };
    let cells = vec![in alloc; 0; 15]?;
    let lock = vec![in alloc; inside; 1]?;
    Ok(Image {
        cap: 1,
        cells: DataWords::new(cells),
        limit: 10,
        lock: Owns::new(lock),
        version,
        width,
    })
}

/// Whether the image breaks this rule, and widening it is refused for it. None: widening it to 9 words is refused as
/// `BadWidth`.
fn breaks(alloc: Global, image: &Image, rule: Option<u64>) -> bool {
    let refused = match rule {
        Some(rule) => Refusal::BadImage { rule },
        None => Refusal::BadWidth,
    };
    first_rule(image) == rule && widen(alloc, image, 9).err() == Some(refused)
}

/// A row of a version and a width, and the rule that such an image breaks, if it breaks one.
pub fn is_rule(alloc: Global, row: &str) -> bool {
    let asked = Phrase::read(row);
    let rule = asked.numbers(2).first().copied();
    match by_hand(alloc, asked.number(0), asked.number(1)) {
        Ok(image) => breaks(alloc, &image, rule),
        Err(_) => false,
    }
}

/// Texts, images and the rules that they break.
pub const TABLES: &str = r#"images: texts are written as they were read
smallest: written smallest
torn: written torn
widened-torn: written widened-torn
wide-torn: written wide-torn
shown: written shown
widened-shown: written widened-shown
spaced: written smallest
older: written smallest
twice: written smallest
escaped: written smallest

images: wider images
torn: widened 1 torn
torn: widened 2 widened-torn
shown: widened 3 widened-shown
wide-torn: widened 3 wide-torn
wide-torn: widened 2
torn: widened 0
torn: widened 9

images: starts
# The starts of images, who is ahead in them, and the functions that the rules use.
torn: start sizes 1 2; dead-in; pending 0 1 77
smallest: start sizes 1 1; dead-in
shown: start sizes 1 1; dead-in; shown 0 1 77
four: start sizes 4 1; door 1 2; ready 2; ready; out; closed; ruined
shown: seen

texts: broken texts
# Broken forms, broken locks and broken mailboxes: a line for each, after the rule that it breaks.
1 []
1 {"cap":-1,"data":[0,0,0,0,0,0,0,0,0,0,0,0,0,0,0],"limit":10,"lock":[[0,1,1]],"version":2,"width":1}
2 {"cap":1,"data":[0,0,0,0,0,0,0,0,0,0,0,0,0,0,0],"limit":10,"lock":[[0,1,1]],"version":7,"width":1}
3 {"cap":1,"data":[0,0,0,0,0,0,0,0,0,0,0,0,0,0,0],"limit":10,"lock":[],"version":2,"width":1}
4 {"cap":1,"data":[0,0,0,0,0,0,0,0,0,0,0,0,0,0],"limit":10,"lock":[[0,1,1]],"version":2,"width":1}
5 {"cap":1,"data":[0,0,0,0,0,0,0,0,0,0,0,0,0,0,0],"limit":10,"lock":[[1,0,1]],"version":2,"width":1}
5 {"cap":1,"data":[0,0,0,0,0,0,0,0,0,0,0,0,0,0,0],"limit":10,"lock":[[0,11,0]],"version":2,"width":1}
6 {"cap":1,"data":[0,0,0,0,0,0,0,0,0,0,0,0,0,0,0,0],"limit":10,"lock":[[0,2,1],[0,1,0]],"version":2,"width":1}
6 {"cap":1,"data":[0,0,0,0,0,0,0,0,0,0,0,0,0,0,0,0],"limit":10,"lock":[[0,1,0],[0,1,1]],"version":2,"width":1}
6 {"cap":1,"data":[0,0,0,0,0,0,0,0,0,0,0,0,0,0,0,0],"limit":10,"lock":[[0,1,1],[0,2,1]],"version":2,"width":1}
7 {"cap":1,"data":[0,1,0,1,0,0,0,0,0,0,0,0,0,0,0],"limit":10,"lock":[[0,1,1]],"version":2,"width":1}
8 {"cap":1,"data":[0,0,1,0,0,0,0,0,0,0,0,0,0,0,0],"limit":10,"lock":[[0,1,1]],"version":2,"width":1}
9 {"cap":1,"data":[0,0,0,1,0,0,0,0,0,0,0,0,0,0,0],"limit":10,"lock":[[0,0,0]],"version":2,"width":1}
9 {"cap":1,"data":[0,0,0,1,0,1,0,0,0,0,0,0,0,0,0],"limit":10,"lock":[[0,0,0]],"version":2,"width":1}

members: members
# The other members, and the rule that each line breaks. 0: none. The width is a member of version 2 alone. A number is
# whole, without sign, point or exponent, and fits in 64 bits. A process has three lock words. No member is missing, and
# none is unknown.
2 "lock":[[0,1,1]],"version":2}
2 "lock":[[0,1,1]],"version":1,"width":1}
2 "lock":[[0,1,1]],"version":0}
0 "lock":[[0,1,1]],"version":1}
3 "lock":[[0,1,1]],"version":2,"width":0}
3 "lock":[[0,1,1]],"version":2,"width":9}
4 "lock":[[0,1,1]],"version":2,"width":2}
1 "lock":[[0,1,1]],"version":2,"width":-0}
1 "lock":[[0,1,1]],"version":2,"width":1.0}
1 "lock":[[0,1,1]],"version":2,"width":1e0}
1 "lock":[[0,1,1]],"version":2,"width":"1"}
1 "lock":[[0,1,1]],"version":2,"width":null}
1 "lock":[[0,1,1]],"version":18446744073709551616,"width":1}
2 "lock":[[0,1,1]],"version":18446744073709551615,"width":1}
1 "lock":[[0,1,1]],"version":1e999,"width":1}
1 "lock":[[0,1]],"version":2,"width":1}
1 "lock":[[0,1,1,0]],"version":2,"width":1}
1 "lock":[[0,1,true]],"version":2,"width":1}
1 "lock":[0,1,1],"version":2,"width":1}
1 "lock":{},"version":2,"width":1}
1 "lock":[[0,1,1]],"width":1}
1 "lock":[[0,1,1]]}
1 "lock":[[0,1,1]],"version":2,"width":1,"wide":1}
1 "lock":[[0,1,1]],"version":2,"width":1,"zone":1}
1 "lock":[[0,1,1]],"version":2,"width":1,"\ud800":1}
1 "lock":[[0,1,1]],"version":2,"width":1} 1

versions: images made by hand
version 1 1
version 2 1
version 1 2 2
version 1 9 2
version 3 1 2
version 2 9 3
version 2 0 3"#;
