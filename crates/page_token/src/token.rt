ghost use Rattle.std.specs.Prelude.{◌≡◌, ◌↔◌, IfOk, Some, None, Err, string_bytes};
ghost use Rattle.page_token.specs.Tokens.{decimal_of, text_of, token_of};

use crate::decimal::decimal_of;
use itoa::Buffer;
use osv_prim::{Id, IdFault, Memory};
use std::alloc::Global;

/// Why a text is not read as a page token.
#[derive(Clone, Copy, Debug, PartialEq, Eq)]
pub enum TokenFault {
    /// No token is written so: there is no `~`, or no snapshot's number before the first, or no id behind it.
    BadToken,
    /// Want of memory.
    Memory,
}

impl From<IdFault> for TokenFault {
    ghost use Rattle.page_token.specs.Tokens.{token_fault};

    ghost from_gives = { λ fault made. made ≡ token_fault fault };

    fn from(fault: IdFault) -> TokenFault {
        match fault {
            IdFault::BadId => TokenFault::BadToken,
            IdFault::Memory => TokenFault::Memory,
        }
    }
}

/// Where a walk over the pages of one snapshot goes on: behind an id.
#[derive(Debug, Drop)]
pub struct Token {
    /// The snapshot's number, from 0.
    pub snapshot: u64,
    /// The last id of the page before.
    pub after: Id,
}

/// The token's text: the snapshot's number in decimal, `~` and the id. Only memory can fail.
pub fn write(alloc: Global, token: &Token) -> Result<String, Memory>
    ensures { IfOk result (λ text. string_bytes text ≡ text_of token.now) }
{
    let mut buffer = Buffer::new();
    let number = buffer.format(token.snapshot);
    let id = token.after.as_str();
    let mut text = String::with_capacity(alloc, number.len() + 1 + id.len())?;
    text.push_str(number)?;
    text.push('~')?;
    text.push_str(id)?;
    Ok(text)
}

/// The token that `write` writes so. Anything else is refused, so a token has one spelling: its number
/// has 64 bits and no superfluous zero.
pub fn read(alloc: Global, text: &str) -> Result<Token, TokenFault>
    ensures ok { IfOk result (λ token. token_of text.now ≡ Some token) }
    ensures bad { (result ≡ Err TokenFault.BadToken) ↔ (token_of text.now ≡ None) }
{
    let Some((number, id)) = text.split_once('~') else {
        return Err(TokenFault::BadToken);
    };
    let Some(snapshot) = decimal_of(number) else {
        return Err(TokenFault::BadToken);
    };
    let after = Id::read(alloc, id)?;
    Ok(Token { snapshot, after })
}
