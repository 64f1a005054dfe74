ghost use Rattle.std.specs.Prelude.{◌≡◌, ◌++◌, IfOk, string_bytes, codes};
ghost use Rattle.std.specs.Fmt.{decimal};
ghost use Rattle.ask.specs.Outputs.{refusal, too_large};

use osv_prim::{Bytes, Memory};
use std::alloc::{AllocError, Global};

/// What a command writes, and the status after it.
#[derive(Debug, Drop)]
pub struct Output {
    /// 0 where the whole input was accepted, 5 where something of it is refused.
    pub status: u8,
    pub bytes: Bytes,
}

/// A line that tells what is refused.
pub fn refusal(line: String) -> Output
    ensures { result ≡ refusal (string_bytes line) }
{
    Output {
        status: 5,
        bytes: Bytes::from_vec(line.into_bytes()),
    }
}

/// What is answered to an input of more bytes than the limit.
pub fn too_large(alloc: Global, limit: u64) -> Result<Output, Memory>
    ensures { IfOk result (λ o. o ≡ too_large limit) }
{
    Ok(refusal(too_large_line(alloc, limit)?))
}

fn too_large_line(alloc: Global, limit: u64) -> Result<String, AllocError>
    ensures { IfOk result (λ t. string_bytes t ≡ codes "refused input larger than " ++ (decimal limit ++ codes "\n")) }
{
    format!(in alloc; "refused input larger than {limit}\n")
}
