//! The secrets that the head of a script says.
ghost use Rattle.std.specs.Prelude.{◌≡◌, None, is_some, IfOk};
ghost use Rattle.line_pipeline.specs.Conn.{secret_of};
ghost use Rattle.hs_replay.specs.Script.{with_secret};

use line_pipeline::Secrets;
use request_types::Port;
use row_types::ByteText;
use std::alloc::{AllocError, Global};

/// No port has one.
pub fn no_secrets() -> Secrets
    ensures { result ≡ record { reading = None; writing = None } }
{
    Secrets {
        reading: None,
        writing: None,
    }
}

/// Whether a port has one.
pub fn has_secret(secrets: &Secrets, port: Port) -> bool
    ensures { result ≡ is_some (secret_of secrets.now port) }
{
    match port {
        Port::Reading => secrets.reading.is_some(),
        Port::Writing => secrets.writing.is_some(),
        Port::Sql => false,
    }
}

/// Sets that of a port. The SQL port has none.
pub fn set_secret(secrets: &mut Secrets, port: Port, key: ByteText)
    ensures { secrets.new ≡ with_secret secrets.old port key }
{
    match port {
        Port::Reading => secrets.reading = Some(key),
        Port::Writing => secrets.writing = Some(key),
        Port::Sql => {}
    }
}

/// Equal secrets with memory of their own.
pub fn copy_secrets(alloc: Global, secrets: &Secrets) -> Result<Secrets, AllocError>
    ensures { IfOk result (λ copy. copy ≡ secrets.now) }
{
    Ok(Secrets {
        reading: copy_secret(alloc, &secrets.reading)?,
        writing: copy_secret(alloc, &secrets.writing)?,
    })
}

fn copy_secret(alloc: Global, secret: &Option<ByteText>) -> Result<Option<ByteText>, AllocError>
    ensures { IfOk result (λ copy. copy ≡ secret.now) }
{
    match secret {
        None => Ok(None),
        Some(key) => Ok(Some(ByteText::of(alloc, key.as_slice())?)),
    }
}
