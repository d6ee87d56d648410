// How the bytes of a blob read as a copy.
ghost use Rattle.std.specs.Prelude.{◌≡◌, ◌≢◌, ◌≤◌, ◌+◌, ◌↔◌, ◌++◌, ◌∷◌, [], length, take, drop, Some, Err, IfOk, IfSome, IfNone, OnErr, List, ℕ, IsTrue};
ghost use Rattle.std.specs.Map.{keys_of};
ghost use Rattle.std.specs.List.Sorted.{IsStrictlySortedBy};
ghost use Rattle.std.specs.Int.{w32, w64, to_be_bytes};
ghost use Rattle.meta_store.specs.Format.{format_of};
ghost use Rattle.meta_store.specs.Copies.{IsSealedAs, IsAbsentBy, IsStorable, IsEntries, NamesForm, Reads, ReadsText, entry_bytes, form_length, form_of};

use crate::Error;
use crate::copy::{Contents, CopyEntries, CopyText, Form};
use crate::metadata::Metadata;
use std::alloc::Global;
use value_codec::{Codec, Key, Seal, codec};

/// How many bytes stand before the body in a copy of form 1: a version, the form, and the body's length.
const PLAIN_HEAD: usize = 17;

/// How many do in a copy of form 2, which has a floor too.
const FLOORED_HEAD: usize = 25;

/// How many bytes the seal has, which stands after the body.
const SEAL: usize = 4;

/// The number of the form without a floor.
pub(super) const PLAIN: u8 = 1;

/// The number of the form with one.
pub(super) const FLOORED: u8 = 2;

/// A copy whose seal holds.
#[derive(Drop)]
struct SealedCopy<'a> {
    /// What bytes 0 to 7 spell (`IsSealedAs`).
    version: u64,
    /// What follows from byte 8 on (`IsSealedAs`).
    form: Form,
    /// The bytes after the head, as many as it says. The seal stands after them.
    body: &'a [u8],
}

/// An entry that some bytes begin with, and how many it takes.
#[derive(Drop)]
struct Entry<K, V> {
    /// The key, `K::SIZE` bytes.
    key: K,
    /// The value, which the configuration accepts (`IsStorable`).
    value: V,
    /// How many bytes key, length and spelling take together.
    len: usize,
}

/// The number in the eight bytes at a place, the highest first.
fn u64_at(bytes: &[u8], at: usize) -> u64
    requires { at + 8 ≤ length bytes.now }
    ensures { to_be_bytes w64 result ≡ take 8 (drop at bytes.now) }
{
    u64::from_be_bytes(<[u8; 8]>::try_from(&bytes[at..at + 8]).unwrap())
}

/// The number in the four bytes at a place, the highest first.
fn u32_at(bytes: &[u8], at: usize) -> u32
    requires { at + 4 ≤ length bytes.now }
    ensures { to_be_bytes w32 result ≡ take 4 (drop at bytes.now) }
{
    u32::from_be_bytes(<[u8; 4]>::try_from(&bytes[at..at + 4]).unwrap())
}

impl Form {
    /// How many bytes stand before the body in a copy of this form.
    fn head_len(self) -> usize
        ensures { result ≡ 16 + form_length self }
    {
        match self {
            Form::Plain(_) => PLAIN_HEAD,
            Form::Floored(_) => FLOORED_HEAD,
        }
    }

    /// The floor of a text of this form. With another number than 1, or with floor 0, it is no text's.
    fn floor(self) -> Option<u64>
        ensures found { IfSome result (λ floor. self ≡ form_of floor) }
        ensures none { IfNone result ((floor : ℕ) → self ≢ form_of floor) }
    {
        match self {
            Form::Plain(number) => {
                if number != PLAIN {
                    return None;
                }
                Some(0)
            }
            Form::Floored(floor) => {
                if floor == 0 {
                    return None;
                }
                Some(floor)
            }
        }
    }
}

/// The form that the bytes name, if they are long enough for a copy of it.
fn form_in(bytes: &[u8]) -> Option<Form>
    ensures found { IfSome result (λ form. NamesForm bytes.now form) }
    ensures none { IfNone result ((form : Form) → ¬ NamesForm bytes.now form) }
{
    if bytes.len() < PLAIN_HEAD + SEAL {
        return None;
    }
    if bytes[8] != FLOORED {
        return Some(Form::Plain(bytes[8]));
    }
    if bytes.len() < FLOORED_HEAD + SEAL {
        return None;
    }
    Some(Form::Floored(u64_at(bytes, 9)))
}

/// The copy that the bytes begin with, if its seal holds. Bytes after it are ignored.
fn sealed_copy<S: Seal>(bytes: &[u8]) -> Option<SealedCopy<'_>>
    ensures found { IfSome result (λ c. IsSealedAs S.seal_of bytes.now c.version c.form c.body.now) }
    ensures none { IfNone result (IsAbsentBy S.seal_of bytes.now) }
{
    let Some(form) = form_in(bytes) else {
        return None;
    };
    let start = form.head_len();
    let len = u64_at(bytes, start - 8);
    if len > (bytes.len() - start - SEAL) as u64 {
        return None;
    }
    let end = start + len as usize;
    let head = &bytes[..end];
    if S::seal(head) != u32_at(bytes, end) {
        return None;
    }
    Some(SealedCopy {
        version: u64_at(bytes, 0),
        form,
        body: &bytes[start..end],
    })
}

/// Whether the key is above those of the entries.
fn is_next<K: Key, V>(items: &[(K, V)], key: &K) -> bool
    requires { IsStrictlySortedBy K.cmp (keys_of items.now) }
    ensures { IsTrue result ↔ IsStrictlySortedBy K.cmp (keys_of items.now ++ key.now ∷ []) }
{
    match items.last() {
        Some((last, _)) => last.cmp(key).is_lt(),
        None => true,
    }
}

impl<K: Key, V: Codec, S: Seal> Metadata<K, V, S> {
    /// How the bytes read as a copy, under this configuration of the values.
    pub fn read_copy(alloc: Global, bytes: &[u8], cfg: V::Cfg) -> Result<CopyText<K, V>, Error>
        ensures { Reads (format_of K.cmp K.key_bytes V.Codec S.Seal cfg) bytes.now result }
    {
        let Some(copy) = sealed_copy::<S>(bytes) else {
            return Ok(CopyText::Absent);
        };
        let version = copy.version;
        match Self::read_text(alloc, copy.form, copy.body, cfg)? {
            Some(contents) => Ok(CopyText::Whole {
                version,
                floor: contents.floor,
                entries: contents.entries,
            }),
            None => Ok(CopyText::Refused { version }),
        }
    }

    /// What a form and a body spell.
    fn read_text(
        alloc: Global,
        form: Form,
        body: &[u8],
        cfg: V::Cfg,
    ) -> Result<Option<Contents<K, V>>, Error>
        ensures { ReadsText (format_of K.cmp K.key_bytes V.Codec S.Seal cfg) form body.now result }
    {
        let Some(floor) = form.floor() else {
            return Ok(None);
        };
        if body.len() < 8 {
            return Ok(None);
        }
        match Self::read_entries(alloc, u64_at(body, 0), &body[8..], cfg)? {
            Some(entries) => Ok(Some(Contents { floor, entries })),
            None => Ok(None),
        }
    }

    /// As many entries, in strictly ascending order of their keys, and nothing after them.
    fn read_entries(
        alloc: Global,
        count: u64,
        bytes: &[u8],
        cfg: V::Cfg,
    ) -> Result<Option<CopyEntries<K, V>>, Error>
        ensures read { IfOk result (λ r. IfSome r (λ entries.
            IsEntries (format_of K.cmp K.key_bytes V.Codec S.Seal cfg) count bytes.now entries)) }
        ensures only { (entries : List _)
            → IsEntries (format_of K.cmp K.key_bytes V.Codec S.Seal cfg) count bytes.now entries
            → IfOk result (λ r. r ≡ Some entries) }
        ensures memory { OnErr result (result ≡ Err Error.Mem) }
    {
        let mut items = Vec::new(alloc);
        let mut at = 0;
        'entries: for _ in 0..count {
            let Some(entry) = Self::read_entry(alloc, &bytes[at..], cfg)? else {
                return Ok(None);
            };
            if !is_next(&items, &entry.key) {
                return Ok(None);
            }
            at += entry.len;
            items.push((entry.key, entry.value))?;
        }
        if at < bytes.len() {
            return Ok(None);
        }
        Ok(Some(CopyEntries::from_vec(items)))
    }

    /// The entry that the bytes begin with.
    fn read_entry(alloc: Global, bytes: &[u8], cfg: V::Cfg) -> Result<Option<Entry<K, V>>, Error>
        ensures read { IfOk result (λ r. IfSome r (λ e.
            take e.len bytes.now ≡ entry_bytes K.key_bytes V.spelling (e.key, e.value))) }
        ensures within { IfOk result (λ r. IfSome r (λ e. e.len ≤ length bytes.now)) }
        ensures storable { IfOk result (λ r. IfSome r (λ e.
            IsStorable (format_of K.cmp K.key_bytes V.Codec S.Seal cfg) e.value)) }
        ensures only { (key : _) (value : _) (rest : List ℕ)
            → IsStorable (format_of K.cmp K.key_bytes V.Codec S.Seal cfg) value
            → bytes.now ≡ entry_bytes K.key_bytes V.spelling (key, value) ++ rest
            → IfOk result (λ r. r ≡ Some (record {
              key = key;
              value = value;
              len = length (entry_bytes K.key_bytes V.spelling (key, value));
            })) }
        ensures memory { OnErr result (result ≡ Err Error.Mem) }
    {
        let head = K::SIZE + 4;
        if bytes.len() < head {
            return Ok(None);
        }
        let size = u32_at(bytes, K::SIZE) as usize;
        if size > bytes.len() - head {
            return Ok(None);
        }
        let Some(key) = K::from_bytes(&bytes[..K::SIZE]) else {
            return Ok(None);
        };
        let len = head + size;
        match V::decode_cfg(alloc, &bytes[head..len], cfg) {
            Ok(value) => Ok(Some(Entry { key, value, len })),
            Err(e) => match e {
                codec::Error::Mem => Err(Error::Mem),
                _ => Ok(None),
            },
        }
    }
}
