//! Reading lines one after another.
ghost use Rattle.std.specs.Prelude.{◌≡◌, ◌++◌, map, OnOk, IfOk};
ghost use Rattle.row_types.specs.Valid.{IsValid};
ghost use Rattle.open_index.specs.Open.{IsNumbered};
ghost use Rattle.open_index.specs.Fits.{HandlesFit};
ghost use Rattle.line_pipeline.specs.Live.{kind_of, kinds_of, left_by, item_of};

use bytes::Bytes;
use open_index::{Auth, Handles, Resolved, resolve_shared};
use request_types::{ConnId, Item, ItemKind, Port};
use row_types::{List, Schema};
use std::alloc::{AllocError, Global};

/// What a line asks of a batch.
fn kind_of(resolved: Resolved) -> ItemKind
    ensures { result ≡ kind_of resolved }
{
    match resolved {
        Resolved::Reply(code) => ItemKind::Ready(code),
        Resolved::Opened | Resolved::Authed => ItemKind::Ready(0),
        Resolved::Ask(request) => ItemKind::Hs(request),
    }
}

/// By what a connection's lines are read.
#[derive(Drop)]
pub struct Reader<'a> {
    pub schema: &'a Schema,
    pub conn: ConnId,
    pub port: Port,
}

/// Reads the lines, each with what the line before left, and puts what they ask for behind the items.
pub fn read_lines(
    alloc: Global,
    reader: &Reader,
    handles: &mut Handles,
    auth: &mut Auth,
    lines: &[Bytes],
    items: &mut List<Item>,
) -> Result<(), AllocError>
    requires { IsNumbered reader.now.schema.now }
    ensures items { OnOk result (items.new ≡ items.old
        ++ map (λ kind. record { conn = reader.now.conn; kind = kind })
        (kinds_of reader.now.schema.now reader.now.port handles.old auth.old lines.now)) }
    ensures left { OnOk result ((handles.new, auth.new)
        ≡ left_by reader.now.schema.now reader.now.port handles.old auth.old lines.now) }
    ensures fits { IsValid reader.now.schema.now → HandlesFit reader.now.schema.now handles.old
        → HandlesFit reader.now.schema.now handles.new }
{
    for line in lines {
        let resolved = resolve_shared(alloc, reader.schema, reader.port, handles, auth, line)?;
        let kind = kind_of(resolved);
        let conn = reader.conn;
        items.push(Item { conn, kind })?;
    }
    Ok(())
}
