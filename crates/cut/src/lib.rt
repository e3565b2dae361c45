// The lines of an input, cut off one by one. Nothing allocates.
#![tactic(auto)]

ghost use Rattle.std.specs.Prelude.{◌≡◌, ◌<◌, ◌≤◌, [], ◌∷◌, length, position, IfSome, MatchOption};
ghost use Rattle.cut.specs.Lines.{lines_of, is_newline, first_line, behind_first};
ghost use Rattle.cut.specs.Left.{lines_left};

mod iter;

pub use iter::Lines;

// Where the first newline stands.
fn first_newline(bytes: &[u8]) -> Option<usize>
    ensures { result ≡ position is_newline bytes.now }
{
    bytes.iter().position(|byte| *byte == b'\n')
}

// The first line without its newline, and what stands behind it; none of an empty input.
#[tactic(auto, using(crate::proofs::Cutting::lines_cut, crate::proofs::Cutting::cut_at, crate::proofs::Cutting::cut_nowhere), unfolding(crate::specs::Lines::lines_of))]
pub fn next_line(bytes: &[u8]) -> Option<(&[u8], &[u8])>
    ensures lines { MatchOption result (lines_of bytes.now ≡ []) (λ p. lines_of bytes.now ≡ p.0.now ∷ lines_of p.1.now) }
    ensures parts { IfSome result (λ p. (p.0.now ≡ first_line bytes.now) × (p.1.now ≡ behind_first bytes.now)) }
    ensures shorter { IfSome result (λ p. length p.1.now < length bytes.now) }
{
    if bytes.is_empty() {
        return None;
    }
    match first_newline(bytes) {
        Some(length) => Some((&bytes[..length], &bytes[length + 1..])),
        None => Some((bytes, &[])),
    }
}

// The lines of an input, from the first.
#[tactic(auto, using(crate::proofs::Cutting::few_lines))]
pub fn lines(bytes: &[u8]) -> Lines<'_>
    ensures lines { lines_left result ≡ lines_of bytes.now }
    ensures few { length (lines_left result) ≤ length bytes.now }
{
    Lines { rest: bytes }
}
