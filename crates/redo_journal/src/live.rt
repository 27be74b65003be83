//! The reading of a root, and of the head of the segment that it names.
ghost use Rattle.std.specs.Prelude.{◌≡◌, ◌+◌, ◌^◌, ◌<◌, ◌≤◌, length, IfOk, IfErr};
ghost use Rattle.std.specs.Bool.{OnTrue, OnFalse};
ghost use Rattle.redo_journal.specs.Reading.{IsRootAt, ReadsRoot, ReadsHead, RefusesHead};
ghost use Rattle.redo_journal.specs.Root.{root_end};

use crate::head::Head;
use crate::image::end_of;
use crate::refusal::Refusal;
use crate::root::Root;
use crate::segment::number_at;
use row_types::ByteText;
use std::alloc::Global;

// What stands from a root's gate on, up to its selector.
const ROOT_MARK: [u8; 9] = [1, 0, 0, 0, 21, 255, 255, 255, 255];

// Whether a whole record of a root's form stands at this gate.
pub(crate) fn is_root(image: &[u8], gate: usize) -> bool
    requires { gate ≤ length image.now }
    ensures yes { OnTrue result (IsRootAt gate image.now) }
    ensures no { OnFalse result (IsRootAt gate image.now → ⊥) }
{
    let rest = &image[gate..];
    rest.len() > 26 && &rest[..9] == ROOT_MARK.as_slice()
}

// The root at this gate.
pub(crate) fn read_root(image: &[u8], gate: usize) -> Root
    requires { gate + 26 < length image.now }
    ensures { ReadsRoot image.now gate result }
{
    let mut root = Root {
        gate: gate as u64,
        second: image[gate + 9] % 2 == 1,
        live: 0,
    };
    root.live = number_at(image, root.cell() as usize);
    root
}

// The head of the segment that a root names.
pub(crate) fn read_head(alloc: Global, image: &[u8], root: &Root) -> Result<Head, Refusal>
    requires { root_end root.now < length image.now }
    ensures ok { IfOk result (ReadsHead image.now root.now) }
    ensures err { IfErr result (RefusesHead image.now root.now) }
{
    let damaged = Refusal::Damaged(root.gate);
    if root.live <= root.gate + 26 || root.live > image.len() as u64 - 8 {
        return Err(damaged);
    }
    let live = root.live as usize;
    let Some(end) = end_of(image, live + 8) else {
        return Err(damaged);
    };
    Ok(Head {
        first: number_at(image, live),
        area: ByteText::of(alloc, &image[live + 12..end])?,
        end,
    })
}
