// The public calls: they ask nothing, and refuse. A refusal changes no byte.
ghost use Rattle.std.specs.Prelude.{◌≡◌, length};
ghost use Rattle.answer.specs.Numbers.{when_done};
ghost use Rattle.aes.specs.Words.{cipher_words};
ghost use Rattle.ccm.specs.Frame.{tag_taken, sealed_frame, opened_frame, fitting, unsealing};

use crate::cipher::Cipher;
use answer::Refusal;

// RFC 3610, 2: a tag has 4, 6, 8, 10, 12, 14 or 16 bytes.
fn tag_taken(m: usize) -> bool
    ensures { result ≡ tag_taken m }
{
    if m < 4 {
        return false;
    }
    if 16 < m {
        return false;
    }
    m % 2 == 0
}

// Whether `at` associated bytes, a payload of n and a tag of m are taken, and a buffer has room for them.
#[tactic(auto, using(crate::proofs::Fitting::taken), unfolding(crate::specs::Frame::fitting))]
fn fits(m: usize, at: usize, n: usize, room: usize) -> Result<(), Refusal>
    ensures { result ≡ fitting m at n room }
{
    if !tag_taken(m) {
        return Err(Refusal::Unsupported);
    }
    if 1024 < at {
        return Err(Refusal::Unsupported);
    }
    if 1024 < n {
        return Err(Refusal::Unsupported);
    }
    if room < at + n + m {
        return Err(Refusal::NoRoom);
    }
    Ok(())
}

// Seals the n bytes from `at` on, with the bytes before them as associated data, and puts the tag of m bytes after them.
pub fn seal(
    keys: &[u32; 44],
    nonce: [u8; 13],
    m: usize,
    out: &mut [u8],
    at: usize,
    n: usize,
) -> Result<(), Refusal>
    ensures value { result ≡ fitting m at n (length out.old) }
    ensures sealed { out.new ≡ when_done result (sealed_frame (cipher_words keys.now) m nonce at n out.old) out.old }
{
    fits(m, at, n, out.len())?;
    let cipher = Cipher {
        table: tables::round_table(),
        keys,
        nonce,
        tag_length: m,
    };
    cipher.seal_frame(out, at, n);
    Ok(())
}

// Opens the n bytes from `at` on, with the bytes before them as associated data, where the tag of m bytes after them is right.
pub fn unseal(
    keys: &[u32; 44],
    nonce: [u8; 13],
    m: usize,
    buf: &mut [u8],
    at: usize,
    n: usize,
) -> Result<(), Refusal>
    ensures value { result ≡ unsealing (cipher_words keys.now) m nonce at n buf.old }
    ensures opened { buf.new ≡ when_done result (opened_frame (cipher_words keys.now) nonce at n buf.old) buf.old }
{
    fits(m, at, n, buf.len())?;
    let cipher = Cipher {
        table: tables::round_table(),
        keys,
        nonce,
        tag_length: m,
    };
    if cipher.open_frame(buf, at, n) {
        Ok(())
    } else {
        Err(Refusal::WrongTag)
    }
}
