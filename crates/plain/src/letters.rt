use crate::answers::Refusal;
use crate::rows::{Call, Order, Verb};

// The refusal, and the byte where the line fails.
#[derive(Clone, Copy)]
pub struct Fault {
    pub refusal: Refusal,
    pub place: usize,
}

// A line, and the place up to which it is read.
#[derive(Drop)]
struct Reader<'a> {
    line: &'a [u8],
    place: usize,
}

impl<'a> Reader<'a> {
    fn fault(&self, refusal: Refusal) -> Fault {
        Fault {
            refusal,
            place: self.place,
        }
    }

    // Moves on behind a space.
    fn space(&mut self) -> Result<(), Fault> {
        if self.line.get(self.place) != Some(&b' ') {
            return Err(self.fault(Refusal::MissingSpace));
        }
        self.place += 1;
        Ok(())
    }

    // The number that begins here; moves on behind it.
    fn number(&mut self) -> Result<u32, Fault> {
        let rest = self.line.get(self.place..).unwrap_or_default();
        let len = rest.iter().take_while(|byte| byte.is_ascii_digit()).count();
        let leading_zero = len > 1 && rest.first() == Some(&b'0');
        if len == 0 || len > 3 || leading_zero {
            return Err(self.fault(Refusal::MalformedNumber));
        }
        self.place += len;
        Ok(
            rest.iter().take(len).fold(0u32, |value, digit| {
                value
                    .wrapping_mul(10)
                    .wrapping_add(u32::from(digit.wrapping_sub(b'0')))
            }),
        )
    }

    fn end(&self) -> Result<(), Fault> {
        if self.place < self.line.len() {
            return Err(self.fault(Refusal::BytesLeftOver));
        }
        Ok(())
    }

    fn call(mut self, verb: Verb) -> Result<Order, Fault> {
        self.space()?;
        let task = self.number()?;
        self.end()?;
        Ok(Order::Call(Call { verb, task }))
    }

    fn making(mut self) -> Result<Order, Fault> {
        self.space()?;
        let tasks = self.number()?;
        self.space()?;
        let spin = self.number()?;
        self.end()?;
        Ok(Order::Make { tasks, spin })
    }
}

pub(crate) fn read_line(line: &[u8]) -> Result<Order, Fault> {
    let reader = Reader { line, place: 1 };
    match line.first() {
        Some(b'n') => reader.making(),
        Some(b'r') => reader.call(Verb::ClaimToRead),
        Some(b'w') => reader.call(Verb::ClaimToWrite),
        Some(b'm') => reader.call(Verb::Move),
        Some(b'l') => reader.call(Verb::Leave),
        _ => Err(Fault {
            refusal: Refusal::UnknownLetter,
            place: 0,
        }),
    }
}
