//! The numbers that tokens write.
ghost use Rattle.std.specs.Prelude.{◌≡◌, nat_eq, IfOk};
ghost use Rattle.row_types.specs.Valid.{are_distinct};
ghost use Rattle.replay_script.specs.Words.{are_conns, conns_of, numbers_of};

use hs_token::{Token, parse_u32};
use row_types::List;
use std::alloc::{AllocError, Global};

/// The connections that the tokens number: one at least, and none twice.
pub(crate) fn conns_of(alloc: Global, tokens: &[Token]) -> Result<Option<List<u32>>, AllocError>
    ensures { IfOk result (λ conns. conns ≡ conns_of tokens.now) }
{
    match numbers_of(alloc, tokens)? {
        Some(numbers) if are_conns(numbers.as_slice()) => Ok(Some(numbers)),
        _ => Ok(None),
    }
}

/// The numbers that the tokens write, where each writes one.
fn numbers_of(alloc: Global, tokens: &[Token]) -> Result<Option<List<u32>>, AllocError>
    ensures { IfOk result (λ numbers. numbers ≡ numbers_of tokens.now) }
{
    let mut numbers = Vec::with_capacity(alloc, tokens.len())?;
    for token in tokens {
        let Token::Text(text) = token else {
            return Ok(None);
        };
        let Some(number) = parse_u32(text) else {
            return Ok(None);
        };
        numbers.push(number)?;
    }
    Ok(Some(List::of_vec(numbers)))
}

fn are_conns(numbers: &[u32]) -> bool
    ensures { result ≡ are_conns numbers.now }
{
    !numbers.is_empty() && are_distinct(numbers)
}

/// Whether none comes twice. Each number is compared with those behind it, up to the first that is there again: 32,640
/// comparisons for 256 connections, of which no more can be open, and 82 million for the longest line.
fn are_distinct(numbers: &[u32]) -> bool
    ensures { result ≡ are_distinct nat_eq numbers.now }
{
    let mut left = numbers;
    while let [first, rest @ ..] = left {
        if rest.contains(first) {
            return false;
        }
        left = rest;
    }
    true
}
