// One line of the drill's input: the command that it gives, or why and where it is refused. Nothing allocates.
#![tactic(auto)]

ghost use Rattle.std.specs.Prelude.{◌≡◌, ◌<◌, ◌≤◌, length, IfOk};
ghost use Rattle.lines.specs.Grammar.{run_length, well_formed, value_of, answer};
ghost use Rattle.lines.specs.Scan.{letter_verb, TokenAt, verb_answer, AllDigits, number_answer, end_answer};
ghost use Rattle.lines.specs.Hex.{hex_at, hex_of};
ghost use Rattle.lines.specs.Written.{Exact};

use types::{Refusal, Verb};

mod commands;

pub use commands::{Command, Fault};

// What a line asks for.
#[derive(Clone, Copy)]
enum LineVerb {
    Make,
    Call(Verb),
}

// The bytes of a line that belong together.
#[derive(Clone, Copy)]
enum Token<'a> {
    Letter(&'a u8),
    Number(&'a [u8]),
    LeftOver(&'a [u8]),
}

// A token with the place where it begins.
#[derive(Clone, Copy)]
struct Placed<'a> {
    token: Token<'a>,
    place: usize,
}

impl Placed<'_> {
    // The fault of a line in which this token does not fit.
    fn fault(self, refusal: Refusal) -> Fault
        ensures { result ≡ record { refusal = refusal; place = self.entry.place } }
    {
        Fault {
            refusal,
            place: self.place,
        }
    }
}

// The value of a number, and the place behind its last digit.
#[derive(Clone, Copy)]
struct Numeral {
    value: u16,
    end: usize,
}

// What a letter asks for, if it is one.
fn letter_verb(letter: char) -> Option<LineVerb>
    ensures { result ≡ letter_verb letter }
{
    match letter {
        'n' => Some(LineVerb::Make),
        'r' => Some(LineVerb::Call(Verb::ClaimRead)),
        'w' => Some(LineVerb::Call(Verb::ClaimWrite)),
        'm' => Some(LineVerb::Call(Verb::Move)),
        'l' => Some(LineVerb::Call(Verb::Leave)),
        _ => None,
    }
}

// How many digits the bytes begin with.
#[tactic(auto, unfolding(crate::specs::Grammar::run_length))]
fn run_length(bytes: &[u8]) -> usize
    ensures value { result ≡ run_length bytes.now }
    ensures within { result ≤ length bytes.now }
{
    bytes
        .iter()
        .take_while(|byte| byte.is_ascii_digit())
        .count()
}

// The token at a place: the letter at the beginning, else the digits, else all that is left.
// (Line and place stay two parameters: a struct of both would have to show before each step that its place is in the line.)
fn token_at(line: &[u8], place: usize) -> Placed<'_>
    requires { place ≤ length line.now }
    ensures place { result.place ≡ place }
    ensures token { TokenAt line.now place result.token }
{
    let rest = &line[place..];
    let digits = &rest[..run_length(rest)];
    let token = match line.first() {
        Some(letter) if place == 0 => Token::Letter(letter),
        _ if digits.is_empty() => Token::LeftOver(rest),
        _ => Token::Number(digits),
    };
    Placed { token, place }
}

// What a line asks for by its letter.
fn line_verb(line: &[u8]) -> Result<LineVerb, Fault>
    ensures { result ≡ verb_answer line.now }
{
    let first = token_at(line, 0);
    let fault = first.fault(Refusal::UnknownLetter);
    match first.token {
        Token::Letter(letter) => letter_verb(char::from(*letter)).ok_or(fault),
        Token::Number(_) | Token::LeftOver(_) => Err(fault),
    }
}

// One to three digits, of which the first is 0 only when it stands alone.
fn well_formed(digits: &[u8]) -> bool
    ensures { result ≡ well_formed digits.now }
{
    match digits {
        [] => false,
        [_] => true,
        [first, ..] => digits.len() <= 3 && *first != b'0',
    }
}

// The number that at most three digits write.
#[tactic(auto, using(crate::proofs::Numbers::value_before), unfolding(crate::specs::Grammar::value_of))]
fn value(digits: &[u8]) -> u16
    requires few { length digits.now ≤ 3 }
    requires all { AllDigits digits.now }
    ensures { result ≡ value_of digits.now }
{
    let mut value = 0;
    for digit in digits {
        value = value * 10 + u16::from(*digit - b'0');
    }
    value
}

// The space at a place and the number behind it.
fn number(line: &[u8], place: usize) -> Result<Numeral, Fault>
    ensures value { result ≡ number_answer line.now place }
    ensures within { IfOk result (λ n. n.end ≤ length line.now) }
{
    if line.get(place) != Some(&b' ') {
        return Err(Fault {
            refusal: Refusal::MissingSpace,
            place,
        });
    }
    let next = token_at(line, place + 1);
    match next.token {
        Token::Number(digits) if well_formed(digits) => Ok(Numeral {
            value: value(digits),
            end: next.place + digits.len(),
        }),
        _ => Err(next.fault(Refusal::MalformedNumber)),
    }
}

// The command, if its line ends at a place.
fn ended(line: &[u8], place: usize, command: Command) -> Result<Command, Fault>
    requires { place ≤ length line.now }
    ensures { result ≡ end_answer line.now place command }
{
    let last = token_at(line, place);
    match last.token {
        Token::LeftOver([]) => Ok(command),
        _ => Err(last.fault(Refusal::LeftOver)),
    }
}

// The command of a line, or the fault of its first part that does not fit.
#[tactic(auto, using(crate::proofs::Steps::verb_fault, crate::proofs::Steps::call_ends, crate::proofs::Steps::make_ends, crate::proofs::Accepted::exact))]
#[inline(always)]
pub fn command(line: &[u8]) -> Result<Command, Fault>
    ensures reads { result ≡ answer line.now }
    ensures exact { Exact line.now result }
{
    let verb = line_verb(line)?;
    let first = number(line, 1)?;
    match verb {
        LineVerb::Make => {
            let second = number(line, first.end)?;
            ended(
                line,
                second.end,
                Command::Make {
                    tasks: first.value,
                    spin: second.value,
                },
            )
        }
        LineVerb::Call(verb) => ended(
            line,
            first.end,
            Command::Call {
                verb,
                task: first.value,
            },
        ),
    }
}

// The digit of a word at a place in base sixteen, counted from the least significant, as a lower-case character.
#[tactic(auto, using(crate::proofs::Mapped::sixteens))]
fn digit_at(word: u32, place: u32) -> u8
    requires { place < 8 }
    ensures { result ≡ hex_at word place }
{
    char::from_digit((word >> (4 * place)) % 16, 16).unwrap() as u8
}

// The eight lower-case digits of a word in base sixteen, the most significant first.
#[tactic(auto, unfolding(crate::specs::Hex::hex_of))]
pub fn digits(word: u32) -> [u8; 8]
    ensures { result ≡ hex_of word }
{
    [7, 6, 5, 4, 3, 2, 1, 0].map(|place| digit_at(word, place))
}
