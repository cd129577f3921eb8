//! The explanation of a schedule as a page of HTML.

use crate::facts::Facts;
use crate::json::facts_json;
use crate::page::{HEAD, PAGE_BEGIN, PAGE_END, SENTENCE_BEGIN, SENTENCE_END, SENTENCE_MIDDLE};
use explain_told::Told;
use serde_json::Value;
use std::alloc::{AllocError, Global};

// The most bytes of a number, its sign counted, such that a script, whose numbers have 53 bits,
// keeps each digit.
const SAFE_DIGITS: usize = 15;

/// The explanation as a page: one file, which loads nothing else. Its data is the JSON of the
/// explanation with the text of the guest, which its script draws. `search` is the report of the
/// search that found the schedule, if one did: the page shows how its schedules end. `why` says in
/// words how the schedule ends and why, and its last line is the command that replays the schedule.
/// Fails where memory runs out.
pub fn explanation_html(
    told: &Told<'_>,
    search: Option<Value>,
    why: &str,
) -> Result<Vec<u8>, AllocError> {
    let alloc = told.alloc;
    let data = facts_json(&Facts::new(&*told, search, Some(&*why))?)?;
    let mut page = Vec::from_slice(alloc, HEAD.as_bytes())?;
    page.extend_from_slice(PAGE_BEGIN.as_bytes())?;
    put_script_json(&mut page, alloc, data.as_slice())?;
    page.extend_from_slice(PAGE_END.as_bytes())?;
    Ok(page)
}

/// The page for a search that found no bad schedule: the name of the file, and `sentence`, which
/// says that the search found none. Fails where memory runs out.
pub fn no_schedule_html(alloc: Global, file: &str, sentence: &str) -> Result<Vec<u8>, AllocError> {
    let mut page = Vec::from_slice(alloc, HEAD.as_bytes())?;
    page.extend_from_slice(SENTENCE_BEGIN.as_bytes())?;
    put_escaped_text(&mut page, file)?;
    page.extend_from_slice(SENTENCE_MIDDLE.as_bytes())?;
    put_escaped_text(&mut page, sentence)?;
    page.extend_from_slice(SENTENCE_END.as_bytes())?;
    Ok(page)
}

// Adds a text as that of an element. Each `<` and `&` is escaped, so that a browser shows the text
// as it is.
fn put_escaped_text(page: &mut Vec<u8>, text: &str) -> Result<(), AllocError> {
    for byte in text.as_bytes() {
        match *byte {
            b'<' => page.extend_from_slice(b"&lt;")?,
            b'&' => page.extend_from_slice(b"&amp;")?,
            byte => page.push(byte)?,
        }
    }
    Ok(())
}

// Adds the JSON of an object as the text of a script element. Each `<` is escaped, so that nothing
// in the JSON ends the element, and each number that a script might round is put in quotes. `alloc`
// is for the bytes of one number.
fn put_script_json(page: &mut Vec<u8>, alloc: Global, data: &[u8]) -> Result<(), AllocError> {
    let mut number = Vec::new(alloc);
    let mut is_text = false;
    let mut is_escaped = false;
    for byte in data {
        if !is_text && matches!(*byte, b'-' | b'0'..=b'9') {
            number.push(*byte)?;
        } else {
            if !number.is_empty() {
                put_number(page, number.as_slice())?;
                number.clear();
            }
            match *byte {
                b'<' => page.extend_from_slice(b"\\u003c")?,
                byte => page.push(byte)?,
            }
        }
        is_text = is_text != (*byte == b'"' && !is_escaped);
        is_escaped = is_text && *byte == b'\\' && !is_escaped;
    }
    Ok(())
}

// Adds the bytes of a number, in quotes where a script might not keep all of its digits.
fn put_number(page: &mut Vec<u8>, number: &[u8]) -> Result<(), AllocError> {
    let quote = if number.len() > SAFE_DIGITS { "\"" } else { "" };
    page.extend_from_slice(quote.as_bytes())?;
    page.extend_from_slice(number)?;
    page.extend_from_slice(quote.as_bytes())
}
