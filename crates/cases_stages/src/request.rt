//! What is asked of one folder of class files.

use anyhow::Result;

/// How much of the points-to sets is printed.
#[derive(Clone, Copy, Debug, PartialEq, Eq)]
pub enum Amount {
    Everything,
    Counts,
}

/// The points-to sets from an entry, and how many pairs are too many.
#[derive(Clone, Copy, Debug)]
pub struct Question<'w> {
    pub entry: &'w str,
    pub limit: u64,
    pub amount: Amount,
}

/// The points-to sets of one folder.
#[derive(Clone, Copy, Debug)]
pub struct Request<'w> {
    pub folder: &'w str,
    pub question: Question<'w>,
}

/// The limit of the pairs where none is named.
pub const LIMIT: u64 = 20_000_000;

/// What the words ask for; `None` for words that are of no form.
pub fn request_of(words: &[String]) -> Result<Option<Request<'_>>> {
    let [form, folder, entry, limits @ ..] = words else {
        return Ok(None);
    };
    let Some(amount) = amount_of(form.as_str()) else {
        return Ok(None);
    };
    let limit = match limits {
        [] => LIMIT,
        [limit] => limit.as_str().parse::<u64>()?,
        _ => return Ok(None),
    };
    let question = Question {
        entry: entry.as_str(),
        limit,
        amount,
    };
    Ok(Some(Request {
        folder: folder.as_str(),
        question,
    }))
}

/// How much a word asks for.
fn amount_of(form: &str) -> Option<Amount> {
    match form {
        "sets" => Some(Amount::Everything),
        "counts" => Some(Amount::Counts),
        _ => None,
    }
}
