// The answers of calls, in words.
ghost use Rattle.std.specs.Prelude.{◌≡◌, ◌+◌, IfOk, take, string_bytes, Some as SomeT};
ghost use Rattle.std.specs.List.{flat_map};
ghost use Rattle.scripts.specs.Texts.{spaced, reply_text, page};

use runs::types::Reply;
use std::alloc::{AllocError, Global};
use std::convert::AsStr;
use std::fmt;

// A path by its ASes in order.
#[derive(Clone, Copy)]
struct Path<'a> {
    ases: &'a [u32],
}

impl fmt::Display for Path<'_> {
    ghost output = { λ path. SomeT (flat_map spaced path.ases.now) };

    fn fmt<W: fmt::Write>(&self, f: &mut fmt::Formatter<W>) -> fmt::Result {
        for number in self.ases {
            write!(f, " {number}")?;
        }
        Ok(())
    }
}

// An answer, in words.
#[derive(Clone, Copy)]
struct Answer<'a> {
    reply: &'a Reply<u32>,
}

// A `match`, since each answer has words of its own.
impl fmt::Display for Answer<'_> {
    ghost output = { λ answer. SomeT (reply_text answer.reply.now) };

    fn fmt<W: fmt::Write>(&self, f: &mut fmt::Formatter<W>) -> fmt::Result {
        match self.reply {
            Reply::Edited(Ok(())) => f.write_str("done"),
            Reply::Edited(Err(refusal)) => write!(f, "refused {}, {refusal}", refusal.number()),
            Reply::Settled(Ok(count)) => write!(f, "{count} entries filled"),
            Reply::Hopped(Ok(Some(next))) => write!(f, "next AS {next}"),
            Reply::Hopped(Ok(None)) => f.write_str("at the destination"),
            Reply::Sent(Ok((delay, links)), list) => {
                let path = Path {
                    ases: list.get(..=*links).unwrap_or(list),
                };
                write!(f, "delay {delay}, {links} links, path{path}")
            }
            Reply::Settled(Err(refusal))
            | Reply::Hopped(Err(refusal))
            | Reply::Sent(Err(refusal), _) => write!(f, "refused {}, {refusal}", refusal.number()),
        }
    }
}

// What is printed of an answer.
pub fn reply_text(heap: Global, reply: &Reply<u32>) -> Result<String, AllocError>
    ensures { IfOk result (λ text. string_bytes text ≡ reply_text reply.now) }
{
    Answer { reply }.to_string(heap)
}

// A line for each call, with its answer.
pub fn page_of<T: AsStr>(
    heap: Global,
    calls: &[T],
    replies: &[Reply<u32>],
) -> Result<String, AllocError>
    ensures { IfOk result (λ text. string_bytes text ≡ page T.text calls.now replies.now) }
{
    let mut text = String::new(heap);
    for (call, reply) in calls.iter().zip(replies) {
        let answer = Answer { reply };
        writeln!(text, "{}: {answer}", call.as_str())?;
    }
    Ok(text)
}
