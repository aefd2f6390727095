//! The rows of the table: a rule, a verdict and a text, and for an accepted text its canonical text.

use crate::notation::decoded;
use std::alloc::{AllocError, Global};

/// What the table says of a text.
#[derive(Drop)]
pub enum Verdict {
    /// It is a JSON text, and this is its canonical text.
    Accepted(Vec<u8>),
    /// It is none.
    Refused,
}

/// A row of the table.
#[derive(Drop)]
pub struct Row<'a> {
    /// The section of RFC 8259, and the rule's name.
    pub rule: &'a str,
    /// The text that the rule is tried on.
    pub text: Vec<u8>,
    /// Whether it is accepted.
    pub verdict: Verdict,
}

impl<'a> Row<'a> {
    /// The row that a line spells, if it spells one. A rule's name begins with the number of a section.
    pub fn parse(alloc: Global, line: &'a str) -> Result<Option<Row<'a>>, AllocError> {
        let mut fields = line.split('\t');
        let (Some(rule), Some(verdict), Some(text)) = (fields.next(), fields.next(), fields.next())
        else {
            return Ok(None);
        };
        let Some(text) = decoded(alloc, text)? else {
            return Ok(None);
        };
        let verdict = match (verdict, fields.next()) {
            ("accept", Some(canonical)) => match decoded(alloc, canonical)? {
                Some(canonical) => Verdict::Accepted(canonical),
                None => return Ok(None),
            },
            ("refuse", None) => Verdict::Refused,
            _ => return Ok(None),
        };
        if fields.next().is_some() || !rule.starts_with(|c: char| c.is_ascii_digit()) {
            return Ok(None);
        }
        Ok(Some(Row {
            rule,
            text,
            verdict,
        }))
    }
}
