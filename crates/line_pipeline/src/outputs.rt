//! The bytes that a connection is still to be sent.
ghost use Rattle.std.specs.Prelude.{◌≡◌, ◌+◌, ◌<◌, ◌≤◌, ◌^◌, [], ◌++◌, true, false, not, drop, length, nat_lt, OnOk, OnErr, vec_len};
ghost use Rattle.std.specs.List.{concat, AllByRecursion};
ghost use Rattle.std.specs.VecDeque.{deque_len, deque_capacity};
ghost use Rattle.line_pipeline.specs.Output.{IsFront, IsText, IsWithinFirst};
ghost use Rattle.line_pipeline.specs.declared.limits.TheConstants.{MAX_UNSENT};

use crate::limits::MAX_UNSENT;
use row_types::ByteText;
use std::alloc::{AllocError, Global};
use std::collections::VecDeque;
use std::marker::Model;

/// Texts in the order in which they are sent. A text joins them whole, so that none is copied.
#[derive(Drop)]
pub struct Output {
    texts: VecDeque<ByteText>,
    // How many bytes of the first text were sent.
    sent: usize,
    // How many bytes of all of them were not.
    len: usize,
    has_place: bool,
}

impl Model for Output {
    ghost use Rattle.std.specs.Prelude.{drop};
    ghost use Rattle.std.specs.List.{concat};
    ghost use Rattle.std.specs.VecDeque.{deque_capacity};
    ghost use Rattle.line_pipeline.specs.Output.{Unsent, IsOutput};
    ghost use Rattle.line_pipeline.specs.declared.limits.TheConstants.{MAX_UNSENT};

    ghost Value = { Unsent };

    ghost view = { λ o. record { bytes = drop o.sent (concat o.texts.items); has_place = o.has_place } };

    ghost invariant = { λ o. IsOutput o.texts.items o.sent o.len o.has_place (deque_capacity o.texts) MAX_UNSENT };
}

/// Takes so many bytes off the front of the texts of whose first some were sent. Answers how many then are.
fn take_off(texts: &mut VecDeque<ByteText>, sent: usize, count: usize) -> usize
    requires each { AllByRecursion IsText texts.old.items }
    requires within { IsWithinFirst texts.old.items sent }
    requires there { sent + count ≤ length (concat texts.old.items) }
    ensures bytes { drop result (concat texts.new.items) ≡ drop (sent + count) (concat texts.old.items) }
    ensures counted { length (concat texts.new.items) + sent + count ≡ length (concat texts.old.items) + result }
    ensures each { AllByRecursion IsText texts.new.items }
    ensures within { IsWithinFirst texts.new.items result }
    ensures fewer { deque_len texts.new ≤ deque_len texts.old }
    ensures capacity { deque_capacity texts.new ≡ deque_capacity texts.old }
{
    let mut at = sent;
    let mut left = count;
    while let Some(first) = texts.front() {
        let rest = first.as_slice().len() - at;
        if left < rest {
            return at + left;
        }
        left -= rest;
        at = 0;
        texts.pop_front();
    }
    0
}

impl Output {
    /// Takes no memory.
    pub fn new(alloc: Global) -> Output
        ensures { result ≡ record { bytes = []; has_place = false } }
    {
        Output {
            texts: VecDeque::new(alloc),
            sent: 0,
            len: 0,
            has_place: false,
        }
    }

    /// Whether so much waits that a connection's lines have to wait too.
    pub fn is_clogged(&self) -> bool
        ensures { result ≡ nat_lt MAX_UNSENT (length self.now.bytes) }
    {
        self.len > MAX_UNSENT
    }

    pub fn is_empty(&self) -> bool
        ensures { result ≡ not (nat_lt 0 (length self.now.bytes)) }
    {
        self.len == 0
    }

    /// The first bytes that wait.
    pub fn unsent(&self) -> &[u8]
        ensures front { IsFront result.now self.now.bytes }
        ensures some { result.now ≡ [] → self.now.bytes ≡ [] }
    {
        match self.texts.front() {
            None => &[],
            Some(text) => &text.as_slice()[self.sent..],
        }
    }

    /// So many bytes of the front were sent.
    pub fn sent(&mut self, count: usize)
        requires { count ≤ length self.old.bytes }
        ensures { self.new ≡ record self.old { bytes = drop count self.old.bytes } }
    {
        self.len -= count;
        self.sent = take_off(&mut self.texts, self.sent, count);
    }

    /// Reserves the place for one more text.
    pub fn reserve(&mut self) -> Result<(), AllocError>
        requires { length self.old.bytes ≤ MAX_UNSENT }
        ensures ok { OnOk result (self.new ≡ record self.old { has_place = true }) }
        ensures err { OnErr result (self.new ≡ self.old) }
    {
        self.texts.reserve(1)?;
        self.has_place = true;
        Ok(())
    }

    /// Puts a text behind the others, in the place that was reserved.
    pub fn push(&mut self, text: ByteText)
        requires { self.old.has_place ≡ true }
        ensures { self.new ≡ record { bytes = self.old.bytes ++ text; has_place = false } }
    {
        self.has_place = false;
        if text.as_slice().is_empty() {
            return;
        }
        self.len += text.as_slice().len();
        self.texts.push_back_reserved(text);
    }

    /// Gives the place up.
    pub fn use_place(&mut self)
        ensures { self.new ≡ record self.old { has_place = false } }
    {
        self.has_place = false;
    }
}
