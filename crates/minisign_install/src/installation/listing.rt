//! Reads the signed list of files, and looks up the name in it. Nothing here allocates.

ghost use Rattle.std.specs.Prelude.{◌≡◌, ◌≢◌, ◌++◌, List, ℕ, Ok, Err, IfErr, replicate, true, take};
ghost use Rattle.std.specs.Option.{unwrap_or};
ghost use Rattle.minisign_external.specs.declared.state.Misuse.TheVariants.{NotDue};
ghost use Rattle.minisign_external.specs.declared.state.Refusal.TheVariants.{WrongUse};
ghost use Rattle.minisign_hash.specs.Blake2b.{blake2b_digest};
ghost use Rattle.minisign_install.specs.Installations.{HoldsState, RunLeadsTo, Steps, list_fault_of, list_of};
ghost use Rattle.minisign_install.specs.Installations.{listing_of, operation_of, reading_for};
ghost use Rattle.minisign_install.specs.Listings.{entry_in, judge_list, list_fault};
ghost use Rattle.minisign_install.specs.Listings.{nothing_listed};
ghost use Rattle.minisign_install.specs.Step.{Answered, CheckList, ListRead, State, after_list};
ghost use Rattle.minisign_install.specs.Step.{after_listing, is_listed, line_at_fault};
ghost use Rattle.minisign_lists.specs.Faults.{line_of_fault};
ghost use Rattle.minisign_lists.specs.declared.lines.LongDigest.TheVariants as long;

use crate::faults::InstallFault;
use crate::installation::Operation;
use crate::installation::progress::{Chosen, Progress};
use crate::installation::reading::Reading;
use minisign_base::NamedFault;
use minisign_external::numbers::Numbered;
use minisign_external::state::{Misuse, Refusal};
use minisign_hash::blake2b::Blake2b;
use minisign_lists::{Algorithm, EntryView, ListFault, ListedDigest, LongDigest, find_listed};

/// The digest of the signed list, and the result of looking up the name in it: 144 bytes with the layout of
/// C. `hash` is the number of the hash function of the listed digest. If it is 0, looking up the name failed,
/// and `fault` is the number of the error.
#[repr(C)]
#[derive(Clone, Copy)]
pub struct ListingValue {
    // The BLAKE2b digest of the list.
    pub(crate) list_digest: [u8; 64],
    // The listed digest, followed by zeros if it has fewer than 64 bytes.
    pub(crate) digest: [u8; 64],
    // The number of the line at fault, or 0.
    pub(crate) line: u64,
    pub(crate) hash: u32,
    pub(crate) fault: u32,
}

impl Progress {
    // Reports the list and the name to look up in it.
    pub(crate) fn list(&mut self, list: &[u8], name: &[u8]) -> Result<(), Refusal<InstallFault>>
        ensures steps { (s : State) → HoldsState self.old s
            → Steps (ListRead list.now name.now) s result self.new }
        ensures misuse { result ≡ Err (WrongUse NotDue) → self.new ≡ self.old }
    {
        if !self.due().is_reading_list() {
            return Err(Refusal::WrongUse(Misuse::NotDue));
        }
        self.keep_list(list, name);
        Ok(())
    }

    // Looks up the name in the list and stores the result. Checking the signature of the list is due next.
    fn keep_list(&mut self, list: &[u8], name: &[u8])
        ensures { (s : State) → HoldsState self.old s → HoldsState self.new (after_list list.now name.now s) }
    {
        self.listing = ListingValue::of(self.chosen.long_digest(), list, name);
        self.reading = Reading::begin(self.reading_for());
        self.go(Operation::CheckList);
    }

    // Returns the hash function with which files are hashed: that of the listed digest, if there is one.
    pub(crate) fn reading_for(&self) -> Option<Algorithm>
        ensures { result ≡ reading_for self.now.chosen self.now.listing }
    {
        if self.chosen.is_list == 1 {
            Algorithm::of_number(self.listing.hash)
        } else {
            None
        }
    }

    // Reports whether Ed25519 accepts the signature for the digest of the list.
    pub(crate) fn answer_list(&mut self, accepted: bool) -> Result<(), Refusal<InstallFault>>
        requires { operation_of self.old.due ≡ CheckList }
        ensures steps { (s : State) → HoldsState self.old s → Steps (Answered accepted) s result self.new }
        ensures never_not_due { IfErr result (λ r. r ≢ WrongUse NotDue) }
    {
        if accepted {
            self.accept_list()
        } else {
            self.reject(NamedFault::SignatureRefused.into())
        }
    }

    // Continues after the list was found to be signed.
    fn accept_list(&mut self) -> Result<(), Refusal<InstallFault>>
        ensures next_state { (s : State) → HoldsState self.old s
            → RunLeadsTo s (after_listing s.listing.listed (record s { is_list_signed = true })) result
            self.new }
        ensures never_not_due { IfErr result (λ r. r ≢ WrongUse NotDue) }
    {
        self.is_list_signed = 1;
        match self.listing.listed() {
            Ok(_) => {
                self.compare();
                Ok(())
            }
            Err(fault) => self.reject(fault),
        }
    }

    // Returns true if the file that was read has the listed digest, or there is no list.
    pub(crate) fn is_listed(&self) -> bool
        ensures { (s : State) → HoldsState self.now s → result ≡ is_listed s }
    {
        if self.chosen.is_list != 1 {
            return true;
        }
        match self.listing.listed() {
            Ok(digest) => self.reading.has_digest(digest),
            Err(_) => false,
        }
    }

    // Returns the number of the line at fault, or 0 if no line is at fault.
    pub(crate) fn line(&self) -> u64
        ensures { (s : State) → HoldsState self.now s → result ≡ line_at_fault s }
    {
        if self.is_list_signed == 1 {
            self.listing.line
        } else {
            0
        }
    }
}

impl Chosen {
    // Returns the hash function that 128 digits stand for on a line of the list that does not name one.
    fn long_digest(&self) -> LongDigest
        ensures { result ≡ unwrap_or (list_of self.now.is_list self.now.long_digest) long.Rejected }
    {
        if self.is_list != 1 {
            return LongDigest::Rejected;
        }
        match LongDigest::of_number(self.long_digest) {
            Some(long) => long,
            None => LongDigest::Rejected,
        }
    }
}

impl ListingValue {
    // Returns the value before a list was read.
    pub(crate) fn none() -> ListingValue
        ensures listing { listing_of result ≡ nothing_listed }
        ensures hash { result.hash ≡ 0 }
    {
        ListingValue {
            list_digest: [0; 64],
            digest: [0; 64],
            line: 0,
            hash: 0,
            fault: 0,
        }
    }

    // Looks up a name in a list.
    fn of(long: LongDigest, list: &[u8], name: &[u8]) -> ListingValue
        ensures { listing_of result ≡ judge_list long list.now name.now }
    {
        match entry_in(long, list, name) {
            Ok(entry) => ListingValue::found(digest_of(list), entry.digest),
            Err(fault) => ListingValue::missing(digest_of(list), fault),
        }
    }

    // Returns the result for a list that has this digest for the name.
    fn found(list_digest: [u8; 64], digest: ListedDigest) -> ListingValue
        ensures { listing_of result ≡ record { digest = list_digest; listed = Ok digest; line = 0 } }
    {
        match digest {
            ListedDigest::Sha256(bytes) => ListingValue::with(list_digest, 1, widened_32(&bytes)),
            ListedDigest::Sha512(bytes) => ListingValue::with(list_digest, 2, bytes),
            ListedDigest::Blake2b(bytes) => ListingValue::with(list_digest, 3, bytes),
        }
    }

    // Returns the result for a list that has this digest for the name. `hash` is the number of its hash
    // function.
    fn with(list_digest: [u8; 64], hash: u32, digest: [u8; 64]) -> ListingValue
        ensures { result ≡ record {
          list_digest = list_digest;
          digest = digest;
          line = 0;
          hash = hash;
          fault = 0;
        } }
    {
        ListingValue {
            list_digest,
            digest,
            line: 0,
            hash,
            fault: 0,
        }
    }

    // Returns the result for a list in which looking up the name failed with this error.
    fn missing(list_digest: [u8; 64], fault: ListFault) -> ListingValue
        ensures { listing_of result
            ≡ record { digest = list_digest; listed = Err (list_fault fault); line = line_of_fault fault } }
    {
        ListingValue {
            list_digest,
            digest: [0; 64],
            line: fault.line(),
            hash: 0,
            fault: list_fault(&fault).number(),
        }
    }

    // Returns the listed digest, or the error with which the run is rejected.
    fn listed(&self) -> Result<ListedDigest, InstallFault>
        ensures { result ≡ (listing_of self.now).listed }
    {
        match Algorithm::of_number(self.hash) {
            Some(Algorithm::Sha256) => Ok(ListedDigest::Sha256(first_32(&self.digest))),
            Some(Algorithm::Sha512) => Ok(ListedDigest::Sha512(self.digest)),
            Some(Algorithm::Blake2b) => Ok(ListedDigest::Blake2b(self.digest)),
            None => Err(list_fault_of(self.fault)),
        }
    }
}

// Returns the entry of a name in a list. Both must be UTF-8.
fn entry_in<'a>(
    long: LongDigest,
    list: &'a [u8],
    name: &[u8],
) -> minisign_lists::Result<EntryView<'a>>
    ensures { result ≡ entry_in long list.now name.now }
{
    match str::from_utf8(list) {
        Ok(list) => match str::from_utf8(name) {
            Ok(name) => find_listed(long, list, name),
            Err(_) => Err(NamedFault::NotUtf8.into()),
        },
        Err(_) => Err(NamedFault::NotUtf8.into()),
    }
}

// Returns the error with which the run is rejected if looking up the name fails with this one.
fn list_fault(fault: &ListFault) -> InstallFault
    ensures { result ≡ list_fault fault.now }
{
    match fault {
        ListFault::Library(_) => NamedFault::NotUtf8.into(),
        ListFault::BadName => InstallFault::BadName,
        ListFault::MalformedLine { line: _ } => InstallFault::MalformedLine,
        ListFault::ListedTwice { line: _ } => InstallFault::ListedTwice,
        _ => InstallFault::NotListed,
    }
}

// Returns the error with this number, if looking up the name failed.
fn list_fault_of(number: u32) -> InstallFault
    ensures { result ≡ list_fault_of number }
{
    if number == 90 {
        InstallFault::BadName
    } else if number == 91 {
        InstallFault::MalformedLine
    } else if number == 93 {
        InstallFault::ListedTwice
    } else if number == NamedFault::NotUtf8.number() {
        NamedFault::NotUtf8.into()
    } else {
        InstallFault::NotListed
    }
}

// Returns the BLAKE2b digest of a list.
fn digest_of(list: &[u8]) -> [u8; 64]
    ensures { result ≡ blake2b_digest 64 list.now }
{
    let mut digest = [0u8; 64];
    Blake2b::blake2b(&mut digest, list);
    digest
}

// Returns 32 bytes, followed by zeros.
fn widened_32(bytes: &[u8; 32]) -> [u8; 64]
    ensures { result ≡ bytes.now ++ replicate 32 0 }
{
    let mut widened = [0u8; 64];
    let (front, _) = widened.split_at_mut(32);
    front.copy_from_slice(bytes);
    widened
}

// Returns the first 32 bytes.
fn first_32(bytes: &[u8; 64]) -> [u8; 32]
    ensures { result ≡ take 32 bytes.now }
{
    let mut first = [0u8; 32];
    let (front, _) = bytes.split_at(32);
    first.copy_from_slice(front);
    first
}
