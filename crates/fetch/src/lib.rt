// Fetching: the numbers that an instruction's bytes hold, byte after byte from EIP.
#![tactic(auto)]

ghost use Rattle.std.specs.Prelude.{◌≡◌, ◌+◌, ◌*◌, ◌<◌, ◌%◌, false, length};
ghost use Rattle.std.specs.Option.{ForSome};
ghost use Rattle.machine.specs.Paging.{At, translate, view};
ghost use Rattle.fetch.specs.Fetch.{signed, fetch_signed, fetch_word, fetch_dword, number};
ghost use Rattle.fetch.specs.Read.{log_at, FetchOk, got_of};

use access::View;
use machine::Reply;
use paging::{Linear, Physical};

// The code at EIP as a step finds it; start: where its first byte lies, if its page was reached.
#[derive(Clone, Copy)]
pub struct Code<'a> {
    pub view: View<'a>,
    pub eip: u32,
    pub start: Option<Physical>,
    pub ghost reached: { ForSome start (λ p. translate view.mem.now view.control false eip ≡ At p.0) },
}

// A number, and how many bytes are fetched by then.
#[derive(Clone, Copy)]
pub struct Fetched {
    pub value: u32,
    pub length: u32,
}

// A byte with its sign.
pub fn extend(x: u32) -> u32
    requires { x < 256 }
    ensures { result ≡ signed x }
{
    alu::signed_byte(x)
}

fn joined(a: u32, b: u32, c: u32, d: u32) -> u32
    requires { (a < 256) × ((b < 256) × ((c < 256) × (d < 256))) }
    ensures { result ≡ a + 256 * b + 65536 * c + 16777216 * d }
{
    a + 256 * b + 65536 * c + 16777216 * d
}

impl<'a> Code<'a> {
    // Reaches the page of EIP, once.
    pub fn open(view: &View<'a>, eip: u32) -> Code<'a>
        ensures { (result.view.mem.now ≡ view.now.mem.now) × ((result.view.control ≡ view.now.control) × (result.eip ≡ eip)) }
    {
        let start = view.translate(false, Linear(eip)).ok().map(|t| t.place);
        Code {
            view: *view,
            eip,
            start,
        }
    }

    // The next byte, by a walk of its own.
    fn far_byte(&self, n: u32) -> Result<Fetched, Reply>
        requires { n < 15 }
        ensures { FetchOk self.now.view.mem.now self.now.view.control self.now.eip n result }
    {
        let l = Linear(self.eip.wrapping_add(n));
        let answer = self.view.translate(false, l);
        let Ok(t) = answer else {
            return Err(answer.unwrap_err());
        };
        Ok(Fetched {
            value: paging::byte_at(self.view.mem, t.place.index()),
            length: n + 1,
        })
    }

    // The next byte of the instruction, after n.
    pub fn byte(&self, n: u32) -> Result<Fetched, Reply>
        ensures { FetchOk self.now.view.mem.now self.now.view.control self.now.eip n result }
    {
        if 15 <= n {
            return Err(Reply::Fault(13, 0, 0));
        }
        if self.eip % 4096 + n < 4096 {
            if let Some(p) = self.start {
                return Ok(Fetched {
                    value: paging::byte_at(self.view.mem, p.index() + n as usize),
                    length: n + 1,
                });
            }
        }
        self.far_byte(n)
    }

    #[tactic(auto, unfolding(crate::specs::Fetch::fetch_word))]
    fn word(&self, n: u32) -> Result<Fetched, Reply>
        ensures { got_of self.now.eip result ≡ fetch_word self.now.eip (view self.now.view.mem.now self.now.view.control) (log_at self.now.eip n) }
    {
        let low = self.byte(n)?;
        let high = self.byte(low.length)?;
        Ok(Fetched {
            value: low.value + 256 * high.value,
            length: high.length,
        })
    }

    #[tactic(auto, unfolding(crate::specs::Fetch::fetch_dword))]
    fn dword(&self, n: u32) -> Result<Fetched, Reply>
        ensures { got_of self.now.eip result ≡ fetch_dword self.now.eip (view self.now.view.mem.now self.now.view.control) (log_at self.now.eip n) }
    {
        let b0 = self.byte(n)?;
        let b1 = self.byte(b0.length)?;
        let b2 = self.byte(b1.length)?;
        let b3 = self.byte(b2.length)?;
        Ok(Fetched {
            value: joined(b0.value, b1.value, b2.value, b3.value),
            length: b3.length,
        })
    }

    // A byte, with its sign.
    #[tactic(auto, unfolding(crate::specs::Fetch::fetch_signed))]
    fn signed(&self, n: u32) -> Result<Fetched, Reply>
        ensures { got_of self.now.eip result ≡ fetch_signed self.now.eip (view self.now.view.mem.now self.now.view.control) (log_at self.now.eip n) }
    {
        let b = self.byte(n)?;
        Ok(Fetched {
            value: extend(b.value),
            length: b.length,
        })
    }

    // A displacement or an immediate of so many bytes.
    #[tactic(auto, unfolding(crate::specs::Fetch::number))]
    pub fn number(&self, n: u32, size: u32) -> Result<Fetched, Reply>
        ensures { got_of self.now.eip result ≡ number self.now.eip size (view self.now.view.mem.now self.now.view.control) (log_at self.now.eip n) }
    {
        if size == 1 {
            return self.signed(n);
        }
        if size == 2 {
            return self.word(n);
        }
        if size == 4 {
            return self.dword(n);
        }
        Ok(Fetched {
            value: 0,
            length: n,
        })
    }
}
