// A shared book and its callers.
ghost use Rattle.std.specs.Prelude.{◌≡◌, Some, IfOk};
ghost use Rattle.settings.specs.Ranges.{default_settings};

use book::Book;
use osv_prim::Memory;
use pass_desk::{BookLock, BookPass, PassDesk, share};
use settings::Settings;
use std::alloc::Global;
use std::sync::Wait;

/// A lock over a book with no entry, and a pass.
pub fn opened(alloc: Global) -> Result<(BookLock, BookPass), Memory>
    ensures lock { IfOk result (λ r. r.1.lock ≡ r.0) }
    ensures settings { IfOk result (λ r. r.0.fixed ≡ Some default_settings) }
{
    share(alloc, Book::new(alloc, Settings::default())?)
}

/// A caller that enters by a pass.
pub fn entered<'a, R: Wait>(
    rt: &'a R,
    lock: &'a BookLock,
    pass: BookPass,
) -> Result<PassDesk<'a, R>, Memory>
    requires lock { pass.lock ≡ lock.now }
    requires settings { lock.now.fixed ≡ Some default_settings }
    ensures lock { IfOk result (λ d. d.lock ≡ Some lock.now) }
    ensures settings { IfOk result (λ d. d.settings ≡ default_settings) }
{
    match PassDesk::enter(rt, lock, pass) {
        Ok(desk) => Ok(desk),
        Err(_) => Err(Memory),
    }
}
