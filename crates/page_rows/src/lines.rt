// What a line does to a list, and its answer.
use cow_pages::Pages;
use row_words::{Words, numbers, words_of};
use std::alloc::{AllocError, Global};

/// The line is carried out on the list, and answered.
pub fn answer(alloc: Global, pages: &mut Pages, text: &str) -> Result<String, AllocError> {
    let mut words = words_of(alloc, text)?;
    match words.next() {
        Some("new") => made(alloc, pages, &mut words),
        Some("grow") => grown(alloc, pages, &mut words),
        Some("set") => set(alloc, pages, &mut words),
        Some("fill") => filled(alloc, pages, &mut words),
        Some("copy") => copied(alloc, pages, &mut words),
        Some("write") => written(alloc, pages, &mut words),
        Some("len") => format!(in alloc; "{}", pages.len()),
        Some("get") => got(alloc, pages, &mut words),
        Some("part") => part(alloc, pages, &mut words),
        Some("all") => shown(alloc, pages, 0, pages.len()),
        _ => word(alloc, "unknown"),
    }
}

fn word(alloc: Global, text: &str) -> Result<String, AllocError> {
    format!(in alloc; "{text}")
}

fn made(alloc: Global, pages: &mut Pages, words: &mut Words) -> Result<String, AllocError> {
    let Some(cells) = words.number() else {
        return word(alloc, "unknown");
    };
    *pages = Pages::new(alloc, cells)?;
    word(alloc, "done")
}

fn grown(alloc: Global, pages: &mut Pages, words: &mut Words) -> Result<String, AllocError> {
    let Some(cells) = words.number() else {
        return word(alloc, "unknown");
    };
    pages.grow(cells)?;
    word(alloc, "done")
}

fn set(alloc: Global, pages: &mut Pages, words: &mut Words) -> Result<String, AllocError> {
    let (Some(at), Some(cell)) = (words.number(), words.number()) else {
        return word(alloc, "unknown");
    };
    if at >= pages.len() {
        return word(alloc, "refused");
    }
    pages.set(at, cell)?;
    word(alloc, "done")
}

fn filled(alloc: Global, pages: &mut Pages, words: &mut Words) -> Result<String, AllocError> {
    let (Some(at), Some(count), Some(cell)) = (words.number(), words.number(), words.number())
    else {
        return word(alloc, "unknown");
    };
    if at > pages.len() || count > pages.len() - at {
        return word(alloc, "refused");
    }
    pages.fill(at, count, cell)?;
    word(alloc, "done")
}

fn copied(alloc: Global, pages: &mut Pages, words: &mut Words) -> Result<String, AllocError> {
    let (Some(to), Some(from), Some(count)) = (words.number(), words.number(), words.number())
    else {
        return word(alloc, "unknown");
    };
    if to > pages.len()
        || count > pages.len() - to
        || from > pages.len()
        || count > pages.len() - from
    {
        return word(alloc, "refused");
    }
    pages.copy(to, from, count)?;
    word(alloc, "done")
}

fn written(alloc: Global, pages: &mut Pages, words: &mut Words) -> Result<String, AllocError> {
    let Some(at) = words.number() else {
        return word(alloc, "unknown");
    };
    let cells = numbers(alloc, words)?;
    let cells = cells.as_slice();
    if at > pages.len() || cells.len() as u64 > pages.len() - at {
        return word(alloc, "refused");
    }
    pages.write(at, cells)?;
    word(alloc, "done")
}

fn got(alloc: Global, pages: &Pages, words: &mut Words) -> Result<String, AllocError> {
    let Some(at) = words.number() else {
        return word(alloc, "unknown");
    };
    if at >= pages.len() {
        return word(alloc, "refused");
    }
    format!(in alloc; "{}", pages.get(at))
}

fn part(alloc: Global, pages: &Pages, words: &mut Words) -> Result<String, AllocError> {
    let (Some(at), Some(count)) = (words.number(), words.number()) else {
        return word(alloc, "unknown");
    };
    if at > pages.len() || count > pages.len() - at {
        return word(alloc, "refused");
    }
    shown(alloc, pages, at, count)
}

fn shown(alloc: Global, pages: &Pages, at: u64, count: u64) -> Result<String, AllocError> {
    let mut out = String::new(alloc);
    for i in 0..count {
        let place = at.saturating_add(i);
        if place < pages.len() {
            let cell = pages.get(place);
            if i == 0 {
                write!(out, "{cell}")?;
            } else {
                write!(out, " {cell}")?;
            }
        }
    }
    Ok(out)
}
