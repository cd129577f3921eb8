//! The formats of an explanation beside text in columns: JSON and an HTML page.

use ctxbound_answers::{Output, Render, has_fewest_preemptions, no_schedule_text};
use explain_page::{explanation_html, explanation_json, no_schedule_html, no_schedule_json};
use explain_text::{Layout, why_text};
use explain_told::Told;
use runner::{Report, report_value};
use serde_json::Value;
use std::alloc::{AllocError, Global};

/// The format of explanations as JSON.
#[derive(Clone, Copy)]
pub struct Json;

/// The format of explanations as an HTML page.
#[derive(Clone, Copy)]
pub struct Html;

/// The columns of a line of the text on a page, where each is a paragraph: as many as there may be.
const PAGE_WIDTH: usize = 1000;

impl Render for Json {
    // The JSON of the explanation, with the report of the search where a search found the schedule.
    fn explanation(&self, told: &Told<'_>, search: Option<&Report>) -> Output {
        explanation_json(told, search_value(told.alloc, search)?)
    }

    // The JSON of the report of a search that found no bad schedule.
    fn no_schedule(&self, alloc: Global, file: &str, report: &Report) -> Output {
        no_schedule_json(alloc, file, report_value(alloc, report)?)
    }
}

impl Render for Html {
    // The page of the explanation, with its text, where steps that matter less share rows (`steps`
    // is 0), and with the report of the search that found the schedule, if one did.
    fn explanation(&self, told: &Told<'_>, search: Option<&Report>) -> Output {
        let layout = Layout {
            width: PAGE_WIDTH,
            steps: 0,
            is_fewest: search.map(has_fewest_preemptions),
        };
        let why = why_text(told, layout)?;
        let why = String::from_utf8_lossy(told.alloc, why.as_slice())?;
        explanation_html(told, search_value(told.alloc, search)?, why.as_str())
    }

    // A page with the sentence that a search found no bad schedule.
    fn no_schedule(&self, alloc: Global, file: &str, report: &Report) -> Output {
        let sentence = no_schedule_text(alloc, file, report)?;
        no_schedule_html(alloc, file, sentence.as_str())
    }
}

// The report of the search that found a schedule, if one did, as JSON.
fn search_value(alloc: Global, search: Option<&Report>) -> Result<Option<Value>, AllocError> {
    match search {
        Some(report) => Ok(Some(report_value(alloc, report)?)),
        None => Ok(None),
    }
}
