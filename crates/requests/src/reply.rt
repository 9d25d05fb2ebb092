// A request as far as it was read, and its reply.
ghost use Rattle.std.specs.Prelude.{◌≡◌, ◌≤◌, length, None, is_some, IfSome};
ghost use Rattle.records.specs.Record.{byte_at};
ghost use Rattle.requests.specs.Letter.{line_of};
ghost use Rattle.text.specs.Page.{Put};
ghost use Rattle.requests.specs.Reply.{payload_length, reply_of};

use super::letter;
use text::Page;

// How many bytes of payload to read behind a header; none where the header is cut short or asks for too many.
pub fn payload_length(header: &[u8]) -> usize
    ensures { (result ≡ payload_length header.now) × (result ≤ 65536) }
{
    let n = parts::word_at(header, 1);
    if header.len() == 5 && n <= 65536 {
        n as usize
    } else {
        0
    }
}

// What is answered where no more requests are: nothing at the end of the input, a line where a request is cut short or too long.
#[tactic(auto, unfolding(crate::specs::Reply::reply_of))]
fn last_line(header: &[u8], payload: &[u8]) -> Option<&'static [u8]>
    ensures last { is_some result ≡ (reply_of header.now payload.now).last }
    ensures text { IfSome result (λ text. text.now ≡ (reply_of header.now payload.now).text) }
    ensures more { result ≡ None → (1 ≤ length header.now) × (line_of (byte_at header.now 0) payload.now ≡ (reply_of header.now payload.now).text) }
{
    if header.is_empty() {
        return Some(b"");
    }
    if header.len() < 5 {
        return Some(b"cut short\n");
    }
    let wanted = parts::word_at(header, 1);
    if 65536 < wanted {
        return Some(b"too long\n");
    }
    if (payload.len() as u64) < wanted {
        return Some(b"cut short\n");
    }
    letter::too_long(header[0], payload).then_some(b"too long\n")
}

// `header` and `payload` are what could be read of the two; answers whether the reply is the last.
pub fn put_reply(page: &mut Page, header: &[u8], payload: &[u8]) -> bool
    ensures last { result ≡ (reply_of header.now payload.now).last }
    ensures writes { Put page.old (reply_of header.now payload.now).text page.new }
{
    match last_line(header, payload) {
        Some(text) => {
            page.put_text(text);
            true
        }
        None => {
            letter::put_line(page, header[0], payload);
            false
        }
    }
}
