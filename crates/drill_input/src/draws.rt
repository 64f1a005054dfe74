ghost use Rattle.std.specs.Prelude.{◌≡◌, ◌<◌, length};
ghost use Rattle.drill_input.specs.Draws.{draw, drawn_id, id, seeded};

use osv_prim::Oid;
use rand_core::SeedableRng;
use rand_core::utils::NextWord;
use rand_pcg::Pcg32;
use std::marker::Model;

/// Draws from one generator, one after another: the same for the same seed.
#[derive(Drop)]
pub struct Draws {
    generator: Pcg32,
}

impl Model for Draws {
    ghost use Rattle.rand_pcg.specs.Lcg.{Lcg};

    ghost Value = { Lcg };

    ghost view = { λ d. d.generator };
}

impl Draws {
    /// The draws of a seed (O'Neill, "PCG: a family of simple fast space-efficient statistically good
    /// algorithms for random number generation": XSH RR 64/32).
    pub fn from_seed(seed: u64) -> Draws
        ensures { result ≡ seeded seed }
    {
        Draws {
            generator: Pcg32::seed_from_u64(seed),
        }
    }

    /// The next word of the generator, modulo `count`.
    pub(crate) fn below(&mut self, count: u32) -> u32
        requires { 0 < count }
        ensures value { (result, self.new) ≡ draw count self.old }
        ensures below { result < count }
    {
        self.generator.next_word() % count
    }

    /// One of the first `count` commits.
    pub(crate) fn commit(&mut self, count: u32) -> Oid
        requires { 0 < count }
        ensures { (result, self.new) ≡ drawn_id count self.old }
    {
        id_of(self.below(count))
    }
}

// The id with these bytes.
fn id_of_bytes(bytes: &[u8]) -> Oid
    requires { length bytes.now ≡ 20 }
    ensures { result ≡ bytes.now }
{
    let mut text = [0u8; 40];
    let _ = hex::encode_to_slice(bytes, &mut text);
    match Oid::read(text.as_slice()) {
        Ok(id) => id,
        Err(_) => unreachable!(),
    }
}

/// The id of the commit with this number: the number and 1, in twenty bytes.
#[tactic(auto, unfolding(crate::specs::Draws::id))]
pub(crate) fn id_of(number: u32) -> Oid
    ensures { result ≡ id number }
{
    let n = number as u64 + 1;
    let a = (n / 4294967296 % 256) as u8;
    let b = (n / 16777216 % 256) as u8;
    let c = (n / 65536 % 256) as u8;
    let d = (n / 256 % 256) as u8;
    let e = (n % 256) as u8;
    id_of_bytes(&[0, 0, 0, 0, 0, 0, 0, 0, 0, 0, 0, 0, 0, 0, 0, a, b, c, d, e])
}
