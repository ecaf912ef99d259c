//! What is replied, in words.
use aio_base::{ChildItem, Memory};
use aio_wire::{Answer, Item, Readiness, Reply};
use try_row::Wanted;

/// The most bytes that are told by themselves; more are told by their number.
const FEW: usize = 8;

fn say_bytes(bytes: &[u8], wanted: &mut Wanted<'_>) {
    if bytes.len() <= FEW {
        wanted.say(bytes);
    } else {
        wanted.say_number(bytes.len() as u64);
        wanted.say(b" bytes");
    }
}

fn say_code(code: i64, wanted: &mut Wanted<'_>) {
    if code < 0 {
        wanted.say(b"-");
    }
    wanted.say_number(code.unsigned_abs());
}

fn news_word(news: &ChildItem) -> &'static str {
    match news {
        ChildItem::Broken => "broken",
        ChildItem::Out(_) => "out ",
        ChildItem::OutEnd => "out ends",
        ChildItem::Errs(_) => "errs ",
        ChildItem::ErrsEnd => "errs ends",
        ChildItem::Exit(_) => "exits ",
    }
}

fn ready_word(ready: Readiness) -> &'static str {
    match ready {
        Readiness::Read => "r",
        Readiness::Write => "w",
        Readiness::Both => "rw",
    }
}

/// Of whom an item tells, and in which word.
fn item_words(item: &Item) -> (u32, &'static str) {
    match item {
        Item::ReadableServer(server) => (*server, "readable"),
        Item::Ready { conn, ready } => (*conn, ready_word(*ready)),
        Item::Up(conn) => (*conn, "up"),
        Item::Down(conn) => (*conn, "down"),
        Item::WritableChild(child) => (*child, "may be fed"),
        Item::Child { child, item } => (*child, news_word(item)),
        Item::Extra { .. } => (0, "another"),
    }
}

fn say_news(news: &ChildItem, wanted: &mut Wanted<'_>) {
    match news {
        ChildItem::Out(bytes) | ChildItem::Errs(bytes) => say_bytes(bytes.items(), wanted),
        ChildItem::Exit(code) => say_code(*code, wanted),
        ChildItem::Broken | ChildItem::OutEnd | ChildItem::ErrsEnd => {}
    }
}

fn say_item(item: &Item, wanted: &mut Wanted<'_>) {
    let (number, word) = item_words(item);
    wanted.say(b"; ");
    wanted.say_number(u64::from(number));
    wanted.say(b" ");
    wanted.say(word.as_bytes());
    if let Item::Child { item, .. } = item {
        say_news(item, wanted);
    }
}

/// Tells each item: `; ` and of whom it is, and what came.
pub fn say_items(items: &[Item], wanted: &mut Wanted<'_>) {
    for item in items {
        say_item(item, wanted);
    }
}

fn answer_word(answer: &Answer) -> &'static str {
    match answer {
        Answer::Turn { .. } => "turn ",
        Answer::Took(_) => "took ",
        Answer::Done => "ok",
        Answer::Refused => "refused",
        Answer::Again => "again",
        Answer::Broken => "broken",
        Answer::Child => "child",
        Answer::Conn => "conn",
        Answer::Data(_) => "data ",
        Answer::Eof => "eof",
        Answer::Extra(_) => "extra ",
    }
}

fn say_answer(answer: &Answer, wanted: &mut Wanted<'_>) {
    wanted.say(answer_word(answer).as_bytes());
    match answer {
        Answer::Turn { now, items } => {
            wanted.say_number(*now);
            say_items(items.items(), wanted);
        }
        Answer::Took(count) => wanted.say_number(*count),
        Answer::Data(bytes) | Answer::Extra(bytes) => say_bytes(bytes.items(), wanted),
        Answer::Done
        | Answer::Refused
        | Answer::Again
        | Answer::Broken
        | Answer::Child
        | Answer::Conn
        | Answer::Eof => {}
    }
}

/// Whether what a wire or a poller replied is told so.
pub fn is_told(reply: &Result<Reply, Memory>, told: &str) -> bool {
    let mut wanted = Wanted::new(told.as_bytes());
    match reply {
        Ok(Reply::Got(answer)) => say_answer(answer, &mut wanted),
        Ok(Reply::Over) | Ok(Reply::Bad(_)) => wanted.say(b"an end"),
        Ok(Reply::Failed) => wanted.say(b"failed"),
        Err(Memory) => wanted.say(b"no memory"),
    }
    wanted.is_told()
}
