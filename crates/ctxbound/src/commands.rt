//! The commands, each from what is asked for to the bytes that are written and the status.

use crate::checks::serve_check;
use crate::forms::{Html, Json};
use crate::joins::join_files;
use crate::prefixes::list_prefixes;
use crate::suites::serve_suite;
use crate::under::search_under;
use crate::verified::verify_guest;
use ctxbound_answers::{
    CommandFault, ExplainForm, ExplainRequest, Fault, Host, JoinRequest, MOST_READ,
    PrefixesRequest, Printed, Request, TextFormat, UnderRequest, VerifyRequest, explain_text,
    read_file, serve_file, write_printed,
};
use std::fs::Files;
use std::io::{Input, Write};

/// Does what a request asks for, with the answer to `out` and the lines of faults to `err`. Answers
/// the status that the program ends with.
pub fn serve_request<H: Host + Files + Input + Clone + Drop, W: Write, E: Write>(
    rt: &H,
    request: &Request,
    out: &mut W,
    err: &mut E,
) -> u8 {
    match request {
        Request::Guest { file, request } => serve_file(rt, file.as_str(), request, out, err),
        Request::Check(request) => serve_check(rt, request, out, err),
        Request::Suite(request) => serve_suite(rt, request, out, err),
        Request::Explain(ExplainRequest { file, .. }, _)
        | Request::Verify(VerifyRequest { file, .. })
        | Request::Prefixes(PrefixesRequest { file, .. })
        | Request::Under(UnderRequest { file, .. })
        | Request::Join(JoinRequest { file, .. }) => {
            let printed = match read_file(rt, file.as_str(), MOST_READ) {
                Ok(text) => answer_for(rt, request, text.as_slice(), out),
                Err(error) => Err(CommandFault::Device(file.as_str(), error)),
            };
            write_printed(printed, out, err)
        }
    }
}

// What is printed where a request on one guest program is done on this text, or why nothing is. To
// `verify` a line on each search is written to `out` as the search ends.
fn answer_for<'a, H: Host + Files + Input, W: Write>(
    rt: &H,
    request: &'a Request,
    text: &[u8],
    out: &mut W,
) -> Result<Printed, CommandFault<'a>> {
    let printed = match request {
        Request::Explain(request, ExplainForm::Text { width, steps }) => {
            let (width, steps) = (*width, *steps);
            explain_text(rt, text, request, &TextFormat { width, steps })
        }
        Request::Explain(request, ExplainForm::Json) => explain_text(rt, text, request, &Json),
        Request::Explain(request, ExplainForm::Html) => explain_text(rt, text, request, &Html),
        Request::Verify(request) => verify_guest(rt, text, request, out),
        Request::Prefixes(request) => list_prefixes(rt.alloc(), text, request),
        Request::Under(request) => search_under(rt, text, request),
        Request::Join(request) => return join_files(rt, text, request),
        Request::Guest { .. } | Request::Check(_) | Request::Suite(_) => Err(Fault::File),
    };
    Ok(printed?)
}
