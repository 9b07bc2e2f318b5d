// A frame in one buffer: the associated data, the payload, the tag. The cipher works on the part from the payload on.
ghost use Rattle.std.specs.Prelude.{◌≡◌, if◌then◌else◌, ◌++◌, ◌+◌, ◌≤◌, length, take, drop};
ghost use Rattle.words.specs.Words.{block_of};
ghost use Rattle.aes.specs.Words.{cipher_words};
ghost use Rattle.ccm.specs.Ccm.{counted, sealed_from, vouched_from};
ghost use Rattle.ccm.specs.Frame.{sealed_frame, opened_frame, vouched_frame};

use crate::cipher::Cipher;
use octets::same;
use words::State;

impl Cipher<'_> {
    // Seals the first n bytes of s in place, and puts the tag after them. x is the MAC so far.
    fn seal_part(&self, x: State, s: &mut [u8], n: usize)
        requires { n + self.now.tag_length ≤ length s.old }
        ensures { s.new ≡ sealed_from (cipher_words self.now.keys.now) self.now.tag_length self.now.nonce (block_of x) (take n s.old)
            ++ drop (n + self.now.tag_length) s.old }
    {
        let y = self.mac_part(x, &s[..n]);
        let t = self.tag_of(y);
        self.count_through(&mut s[..n]);
        octets::copy(&t[..self.tag_length], &mut s[n..]);
    }

    // Seals a payload of n bytes that starts at `at`: what lies before it is the associated data, and the tag follows it.
    pub(crate) fn seal_frame(&self, out: &mut [u8], at: usize, n: usize)
        requires { at + n + self.now.tag_length ≤ length out.old }
        ensures { out.new ≡ sealed_frame (cipher_words self.now.keys.now) self.now.tag_length self.now.nonce at n out.old }
    {
        let x = self.mac_head(&out[..at], n);
        self.seal_part(x, &mut out[at..], n);
    }

    // Opens n bytes of s, which the tag follows. They are deciphered aside, and put in place only where the tag is right: where it
    // is wrong, every byte stays. x is the MAC so far.
    fn open_part(&self, x: State, s: &mut [u8], n: usize) -> bool
        requires n_bound { n ≤ 1024 }
        requires room { n + self.now.tag_length ≤ length s.old }
        ensures value { result ≡ vouched_from (cipher_words self.now.keys.now) self.now.tag_length self.now.nonce (block_of x) (take n s.old)
            (take self.now.tag_length (drop n s.old)) }
        ensures opened { s.new ≡ (if result then counted (cipher_words self.now.keys.now) self.now.nonce 1 (take n s.old) ++ drop n s.old else s.old) }
    {
        let mut p = [0u8; 1024];
        octets::copy(&s[..n], &mut p);
        self.count_through(&mut p[..n]);
        let y = self.mac_part(x, &p[..n]);
        let t = self.tag_of(y);
        let e = n + self.tag_length;
        let ok = same(&t[..self.tag_length], &s[n..e]);
        if ok {
            octets::copy(&p[..n], s);
            return true;
        }
        false
    }

    // Opens a payload of n bytes that starts at `at`, in place, where the tag after it is right.
    pub(crate) fn open_frame(&self, buf: &mut [u8], at: usize, n: usize) -> bool
        requires n_bound { n ≤ 1024 }
        requires room { at + n + self.now.tag_length ≤ length buf.old }
        ensures value { result ≡ vouched_frame (cipher_words self.now.keys.now) self.now.tag_length self.now.nonce at n buf.old }
        ensures opened { buf.new ≡ (if result then opened_frame (cipher_words self.now.keys.now) self.now.nonce at n buf.old else buf.old) }
    {
        let x = self.mac_head(&buf[..at], n);
        self.open_part(x, &mut buf[at..], n)
    }
}
