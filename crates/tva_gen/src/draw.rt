// What a row is drawn from.
ghost use Rattle.std.specs.Prelude.{◌≡◌};
ghost use Rattle.tva_gen.specs.Draws.{state_behind, draw_at, is_raw, later, payload};

use rand_core::utils::NextWord;
use rand_pcg::Lcg64Xsh32;

/// The four words of a row: how far time grows, its host, the host that it goes to, and its
/// payload and kind.
#[derive(Clone, Copy)]
pub struct RowWords {
    pub pause: u32,
    pub from: u32,
    pub to: u32,
    pub rest: u32,
}

/// Draws the four words of a row.
#[tactic(auto, unfolding(crate::specs::Draws::draw_at, crate::specs::Draws::state_behind))]
pub fn draw(words: &mut Lcg64Xsh32) -> RowWords
    ensures draw { result ≡ draw_at words.old }
    ensures behind { words.new ≡ state_behind words.old }
{
    let pause = words.next_word();
    let from = words.next_word();
    let to = words.next_word();
    let rest = words.next_word();
    RowWords {
        pause,
        from,
        to,
        rest,
    }
}

/// The time of the row behind one of that time, in nanoseconds.
#[tactic(auto, unfolding(crate::specs::Draws::later))]
pub fn later(horizon: u64, time: u64, draw: RowWords) -> u64
    ensures { result ≡ later horizon time draw }
{
    time.saturating_add(u64::from(draw.pause % 100_000))
        .min(horizon)
}

/// The payload, in bytes.
pub fn payload(draw: RowWords) -> u32
    ensures { result ≡ payload draw }
{
    draw.rest % 1001
}

/// Whether the row gives the bytes of a shim.
pub fn is_raw(draw: RowWords) -> bool
    ensures { result ≡ is_raw draw }
{
    draw.rest / 65_536 % 8 == 0
}
