//! The rule of the table, and the names of its steps.
ghost use Rattle.std.specs.Prelude.{Option, None};
ghost use Rattle.turn_lock.specs.Serial.{IsSerial, starting};
ghost use Rattle.turn_lock.specs.Steps.{Drawn, Looked, Counted, PassedOn, Settled, dealing, newcomer, joined, spent};

use crate::keeps::Keeps;
use crate::view::{Dealt, View};
use atomic_table::{Join, Play, Split, TableRule};
use std::marker::{Brand, PhantomData};

/// One history for all passes.
pub struct Serial<B> {
    value: PhantomData<B>,
}

impl<B: Keeps> TableRule<Option<B>, View<B, B::Entry>, Dealt<B>> for Serial<B> {
    ghost holds = { IsSerial B.stands B.maker B.place B.faults };

    ghost first = { starting B.stands B.maker B.place B.faults };
}

pub(crate) struct Draw;

impl<B, E> Play<Option<B>, View<B, E>> for Draw {
    ghost then = { Drawn };
}

pub(crate) struct Look<B> {
    value: PhantomData<B>,
}

impl<B: Keeps> Play<Option<B>, View<B, B::Entry>> for Look<B> {
    ghost then = { Looked B.stands B.maker B.faults };
}

/// Names the entry that a step counts. Each call picks it.
pub(crate) trait Names<E> {
    ghost named: { Option E };
}

impl<E> Names<E> for Brand {
    ghost named = { None };
}

pub(crate) struct Count<J> {
    entry: PhantomData<J>,
}

impl<B, E, J: Names<E>> Play<Option<B>, View<B, E>> for Count<J> {
    ghost then = { Counted J.named };
}

pub(crate) struct PassOn<B> {
    value: PhantomData<B>,
}

impl<B: Keeps> Play<Option<B>, View<B, B::Entry>> for PassOn<B> {
    ghost then = { PassedOn B.stands B.maker B.faults };
}

pub(crate) struct Settle<B> {
    value: PhantomData<B>,
}

impl<B: Keeps> Play<Option<B>, View<B, B::Entry>> for Settle<B> {
    ghost then = { Settled B.stands B.maker B.faults };
}

pub(crate) struct Deal;

impl<B, E> Split<View<B, E>> for Deal {
    ghost left = { dealing };

    ghost right = { newcomer };
}

pub(crate) struct Both;

impl<B, E> Join<View<B, E>> for Both {
    ghost both = { joined };

    ghost spent = { spent };
}
