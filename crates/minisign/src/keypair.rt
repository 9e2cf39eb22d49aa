//! Key pairs and their generation.

ghost use Rattle.std.specs.Prelude.{◌≡◌, ℕ, List, ◌++◌, length, string_bytes, None, Ok, Err, IfSome, IfOk};
ghost use Rattle.std.specs.Prelude.{IfErr, OnOk, OnErr};
ghost use Rattle.std.specs.Option.{option_copied, option_map};
ghost use Rattle.std.specs.Str.Iter.{LacksByte};
ghost use Rattle.minisign_base.specs.Devices.{PrefixIsRemoved};
ghost use Rattle.minisign_base.specs.DeviceCalls.{SinkFailsAtPart, SinkCompletesPart, prompt_call};
ghost use Rattle.minisign_base.specs.DeviceCalls.{random_call};
ghost use Rattle.minisign_base.specs.DeviceCalls.{sink_call};
ghost use Rattle.minisign_base.specs.Fault.{Named};
ghost use Rattle.minisign_base.specs.declared.faults.NamedFault.TheVariants.{OutOfMemory, RandomSourceFailed};
ghost use Rattle.minisign_base.specs.declared.faults.NamedFault.TheVariants.{WritingFailed};
ghost use Rattle.minisign.specs.Records.{public_key_bytes, secret_key_bytes};
ghost use Rattle.minisign.specs.Sealing.{unencrypted_key, xored_key, OpensTo, read_unencrypted_key};
ghost use Rattle.minisign.specs.Reading.{HasFailed};
ghost use Rattle.minisign.specs.Signing.{HasDrawn};
ghost use Rattle.minisign_base.specs.Prompts.{ConversationEnds};
ghost use Rattle.minisign_base.specs.Passwords.{password_of};
ghost use Rattle.minisign.specs.KeyTexts.{public_key_text, read_secret_key, secret_key_text};
ghost use Rattle.minisign.specs.Generation.{IsSealing, choosing_steps, sealing_steps, AreSeedAndKeynum};
ghost use Rattle.minisign.specs.Generation.{HasSealed, IsGenuinePair, IsSealedOf, IsUnsealedPair};
ghost use Rattle.minisign.specs.Generation.{OpensToPair, PartsFail, RawPairFails, SealedPairFails};
ghost use Rattle.minisign.specs.Generation.{SealedTextsFail, public_key_of, secret_of, unsealed_key};
ghost use Rattle.minisign.specs.Generation.{SinksFail};

use crate::constants::{MEMLIMIT, OPSLIMIT, SIGALG};
use crate::drawing::{draw, draw_two};
use crate::keynum::KeynumPK;
use crate::making::Sealing;
use crate::public_key::PublicKey;
use crate::secret_key::SecretKey;
use minisign_base::devices::random_sources::RandomSource;
use minisign_base::devices::sinks::{Sink, put_and_flush};
use minisign_base::devices::sources::Source;
use minisign_base::helpers::get_password;
use minisign_base::prompt::Prompt;
use minisign_base::scheme::Scheme;
use minisign_base::{NamedFault, Result};
use std::alloc::Global;

/// A public key and the secret key that belongs to it.
#[derive(Clone, Debug, Drop)]
pub struct KeyPair {
    /// The public key.
    pub pk: PublicKey,
    /// The secret key, encrypted or not.
    pub sk: SecretKey,
}

// The random bytes for an encrypted key pair, in the order in which they are generated.
#[derive(Drop)]
pub(crate) struct Drawn {
    seed: [u8; 32],
    keynum: [u8; 8],
    salt: [u8; 32],
}

impl KeyPair {
    /// Generates a key pair that is not encrypted. Takes 32 random bytes for the seed and then 8 for the
    /// key ID.
    ///
    /// Does not allocate. Fails only if the random source failed.
    #[tactic(auto, using(crate::proofs::GeneratedKeys::unsealed_pair, crate::proofs::GeneratedKeys::seed_and_keynum))]
    pub fn generate_unencrypted_keypair<S: Scheme, Z: RandomSource>(
        scheme: &S,
        random: &mut Z,
    ) -> Result<KeyPair>
        // On success, the pair is computed as `specs/Generation` defines it from bytes that were read from
        // the random source: 32 for the seed and 8 for the key ID.
        ensures is_new_pair { IfOk result
            (λ pair. IsUnsealedPair (S.public_of scheme.now)
            (random_call Z.RandomSource random.old random.new) pair.pk pair.sk) }

        // On success, the two keys belong together: the secret key is genuine and not encrypted, and the
        // public key has the secret key's key ID and the last 32 of its secret bytes.
        ensures genuine { IfOk result
            (λ pair. IsGenuinePair (S.public_of scheme.now) pair.pk pair.sk) }
        ensures unencrypted { IfOk result (λ pair. unencrypted_key pair.sk ≡ Ok pair.sk) }

        // On success, `SecretKey::from_unencrypted_box` accepts each text that parses to the secret key of
        // an unencrypted pair.
        ensures texts { IfOk result
            (λ pair. (text : List ℕ) → read_secret_key text ≡ Ok pair.sk
            → read_unencrypted_key text ≡ Ok pair.sk) }

        // On success, the random source did not fail.
        ensures no_new_fault { OnOk result (Z.random_faults random.new ≡ Z.random_faults random.old) }

        // The only error is that of the random source, and its error count rose.
        ensures refused { IfErr result
            (HasFailed RandomSourceFailed Z.random_faults random.old random.new) }

        // The unread bytes of the random source are a suffix of those before the call, whatever the
        // result.
        ensures prefix_removed { PrefixIsRemoved (Z.random_ahead random.old) (Z.random_ahead random.new) }
    {
        let (seed, keynum) = draw_two(random)?;
        Ok(make_pair(scheme, &seed, keynum))
    }

    /// Generates a key pair that is not encrypted, and writes the 42 bytes of its public key to `pk_sink`
    /// and the 158 bytes of its secret key to `sk_sink`.
    ///
    /// Errors come in this order: a failing `random`; memory for the bytes of both keys, with both sinks
    /// unchanged; a failing `pk_sink`; a failing `sk_sink`. The public key is written and flushed before
    /// the secret key is written, and the secret key is flushed at the end. A sink that failed has received a
    /// prefix of its key.
    pub fn generate_and_write_unencrypted_keypair<S: Scheme, Z: RandomSource, P: Sink, K: Sink>(
        alloc: Global,
        scheme: &S,
        random: &mut Z,
        pk_sink: &mut P,
        sk_sink: &mut K,
    ) -> Result<KeyPair>
        // On success, the pair is made as `KeyPair::generate_unencrypted_keypair` promises.
        ensures is_new_pair { IfOk result
            (λ pair. IsUnsealedPair (S.public_of scheme.now)
            (random_call Z.RandomSource random.old random.new) pair.pk pair.sk) }
        ensures genuine { IfOk result
            (λ pair. IsGenuinePair (S.public_of scheme.now) pair.pk pair.sk) }
        ensures unencrypted { IfOk result (λ pair. unencrypted_key pair.sk ≡ Ok pair.sk) }

        // On success, the sinks received the raw bytes of both keys and did not fail.
        ensures public { IfOk result
            (λ pair. SinkCompletesPart (sink_call P.Sink pk_sink.old pk_sink.new)
            (public_key_bytes pair.pk)) }
        ensures secret { IfOk result
            (λ pair. SinkCompletesPart (sink_call K.Sink sk_sink.old sk_sink.new)
            (secret_key_bytes pair.sk)) }

        // On success, the random source did not fail.
        ensures no_new_fault { OnOk result (Z.random_faults random.new ≡ Z.random_faults random.old) }

        // If no pair is made, or an allocation fails for its bytes, both sinks are unchanged; such an
        // allocation fails only if the random source did not fail. Otherwise a sink failed: either
        // `pk_sink`, and `sk_sink` is unchanged, or `sk_sink`, after `pk_sink` received and flushed
        // everything. The sink that failed has received a prefix.
        ensures refused { IfErr result (RawPairFails (S.public_of scheme.now)
            (random_call Z.RandomSource random.old random.new) (sink_call P.Sink pk_sink.old pk_sink.new)
            (sink_call K.Sink sk_sink.old sk_sink.new)) }

        // The unread bytes of the random source are a suffix of those before the call, whatever the
        // result.
        ensures prefix_removed { PrefixIsRemoved (Z.random_ahead random.old) (Z.random_ahead random.new) }
    {
        let pair = KeyPair::generate_unencrypted_keypair(scheme, random)?;
        write_bytes(alloc, pk_sink, sk_sink, &pair)?;
        Ok(pair)
    }

    /// Generates a key pair whose secret key is encrypted under a password. Takes 32 random bytes
    /// for the seed, then 8 for the key ID, then 32 for the salt, all before the first prompt.
    ///
    /// If no `password` is given, the prompt says what the password is for, asks for it twice, and
    /// reports the derivation, which takes about 32 MiB of memory. If one is given, the prompt is
    /// unchanged. `SecretKey::from_box` decrypts the secret key with the same password.
    ///
    /// Errors come in this order: a failing `random`, before the first prompt; the errors of
    /// `get_password`, for the first prompt and then for the second; two passwords that differ,
    /// `PasswordsDiffer`; memory for the derivation. If any text cannot be written to the prompt, the
    /// error is `WritingFailed`.
    pub fn generate_encrypted_keypair<S: Scheme, Z: RandomSource, R: Source, W: Sink>(
        alloc: Global,
        scheme: &S,
        random: &mut Z,
        password: Option<String>,
        prompt: &mut Prompt<R, W>,
    ) -> Result<KeyPair>
        // On success, the pair is computed as `specs/Generation` defines it from bytes that were read from
        // the random source: 32 for the seed, 8 for the key ID and 32 for the salt.
        //
        // On success, the secret key decrypts under the password that was given or typed, and is then
        // genuine. Each text that parses to the secret key decrypts under this password to the same key and
        // to no other. If a password is given, the prompt is unchanged; otherwise the prompts, the answers
        // and everything that was written are as docs/FORMATS.md says.
        ensures is_new_pair { IfOk result (λ pair. HasSealed (S.public_of scheme.now)
            (random_call Z.RandomSource random.old random.new) (prompt_call R.Source W.Sink prompt.old
            prompt.new) (option_map string_bytes password) pair.pk pair.sk) }

        // On success, the random source did not fail.
        ensures no_new_fault { OnOk result (Z.random_faults random.new ≡ Z.random_faults random.old) }

        // If the random source failed, the prompt is unchanged. Otherwise all 72 random bytes were taken, and
        // an allocation failed, the prompt failed, a typed line was rejected as a password, or the two typed
        // passwords differ.
        ensures refused { IfErr result (SealedPairFails (random_call Z.RandomSource random.old random.new)
            (prompt_call R.Source W.Sink prompt.old prompt.new) (option_map string_bytes password)) }

        // The unread bytes of the random source are a suffix of those before the call, whatever the
        // result.
        ensures prefix_removed { PrefixIsRemoved (Z.random_ahead random.old) (Z.random_ahead random.new) }
    {
        let drawn = draw_with_salt(random)?;
        seal_pair(alloc, scheme, &drawn, password, prompt)
    }

    /// Generates an encrypted key pair as `generate_encrypted_keypair` does, and writes the text of its
    /// public key to `pk_sink` and the text of its secret key, with `comment` or the default comment, to
    /// `sk_sink`.
    ///
    /// Errors come in this order: those of `generate_encrypted_keypair`, and memory for the two texts, with
    /// both sinks unchanged; a failing `pk_sink`; a failing `sk_sink`. The public key is written and
    /// flushed before the secret key is written, and the secret key is flushed at the end. A sink that failed
    /// has received a prefix of its text.
    pub fn generate_and_write_encrypted_keypair<
        S: Scheme,
        Z: RandomSource,
        P: Sink,
        K: Sink,
        R: Source,
        W: Sink,
    >(
        alloc: Global,
        scheme: &S,
        random: &mut Z,
        pk_sink: &mut P,
        sk_sink: &mut K,
        comment: Option<&str>,
        password: Option<String>,
        prompt: &mut Prompt<R, W>,
    ) -> Result<KeyPair>
        // On success, the pair is made as `KeyPair::generate_encrypted_keypair` promises.
        ensures is_new_pair { IfOk result (λ pair. HasSealed (S.public_of scheme.now)
            (random_call Z.RandomSource random.old random.new) (prompt_call R.Source W.Sink prompt.old
            prompt.new) (option_map string_bytes password) pair.pk pair.sk) }

        // On success, the sinks received the texts of both keys and did not fail.
        ensures public { IfOk result
            (λ pair. SinkCompletesPart (sink_call P.Sink pk_sink.old pk_sink.new)
            (public_key_text pair.pk)) }
        ensures secret { IfOk result
            (λ pair. SinkCompletesPart (sink_call K.Sink sk_sink.old sk_sink.new)
            (secret_key_text (option_copied comment.entry) pair.sk)) }

        // On success, if the comment has no line feed, the text of the secret key decrypts under the
        // password to the key that belongs to the public key.
        ensures opens_again { IfSome comment.entry (λ s. LacksByte 10 s.now) → IfOk result (λ pair.
            (typed : List ℕ) → OpensToPair (S.public_of scheme.now) typed pair.pk pair.sk → OpensTo
            (secret_key_text (option_copied comment.entry) pair.sk) typed 1 (xored_key pair.sk typed)) }

        // On success, the random source did not fail.
        ensures no_new_fault { OnOk result (Z.random_faults random.new ≡ Z.random_faults random.old) }

        // If no pair is made, or an allocation fails for its texts, both sinks are unchanged; such an
        // allocation fails only if the random source did not fail. Otherwise a sink failed: either
        // `pk_sink`, and `sk_sink` is unchanged, or `sk_sink`, after `pk_sink` received and flushed
        // everything. The sink that failed has received a prefix.
        ensures refused { IfErr result (SealedTextsFail (S.public_of scheme.now)
            (random_call Z.RandomSource random.old random.new) (prompt_call R.Source W.Sink prompt.old
            prompt.new) (option_map string_bytes password) (sink_call P.Sink pk_sink.old pk_sink.new)
            (sink_call K.Sink sk_sink.old sk_sink.new) (option_copied comment.entry)) }

        // The unread bytes of the random source are a suffix of those before the call, whatever the
        // result.
        ensures prefix_removed { PrefixIsRemoved (Z.random_ahead random.old) (Z.random_ahead random.new) }
    {
        let pair = KeyPair::generate_encrypted_keypair(alloc, scheme, random, password, prompt)?;
        write_texts(alloc, pk_sink, sk_sink, &pair, comment)?;
        Ok(pair)
    }
}

// Makes a key pair that is encrypted with the given password or, without one, with a password that
// the prompt asks for.
fn seal_pair<S: Scheme, R: Source, W: Sink>(
    alloc: Global,
    scheme: &S,
    drawn: &Drawn,
    password: Option<String>,
    prompt: &mut Prompt<R, W>,
) -> Result<KeyPair>
    ensures sealed { IfOk result (λ pair. (typed : List ℕ) × IsSealing (prompt_call R.Source W.Sink prompt.old
        prompt.new) (option_map string_bytes password) (Ok typed) × IsSealedOf (S.public_of scheme.now)
        drawn.now.seed drawn.now.keynum drawn.now.salt typed pair.pk pair.sk) }
    ensures refused { IfErr result
        (λ e. IsSealing (prompt_call R.Source W.Sink prompt.old prompt.new)
        (option_map string_bytes password) (Err e)) }
{
    match password {
        Some(password) => make_sealed_pair(alloc, scheme, drawn, password.as_bytes()),
        None => ask_and_seal(alloc, scheme, drawn, prompt),
    }
}

// Prompts for a password and makes a key pair that is encrypted with it.
fn ask_and_seal<S: Scheme, R: Source, W: Sink>(
    alloc: Global,
    scheme: &S,
    drawn: &Drawn,
    prompt: &mut Prompt<R, W>,
) -> Result<KeyPair>
    ensures typed { IfOk result (λ pair. (password : List ℕ) × IsSealing (prompt_call R.Source W.Sink
        prompt.old prompt.new) None (Ok password) × IsSealedOf (S.public_of scheme.now) drawn.now.seed
        drawn.now.keynum drawn.now.salt password pair.pk pair.sk) }
    ensures refused { IfErr result
        (λ e. IsSealing (prompt_call R.Source W.Sink prompt.old prompt.new) None (Err e)) }
{
    let password = choose_password(alloc, prompt)?;
    seal_with_reports(alloc, scheme, drawn, password.as_bytes(), prompt)
}

// Says what the password is for, and prompts for it twice.
#[tactic(auto, unfolding(crate::specs::Generation::purpose_line, crate::specs::Sealing::asking_text, crate::specs::Generation::second_question))]
fn choose_password<R: Source, W: Sink>(alloc: Global, prompt: &mut Prompt<R, W>) -> Result<String>
    ensures chosen { IfOk result (λ password. (first : List ℕ) × (second : List ℕ) × (password_of first
        ≡ Ok (string_bytes password)) × (password_of second ≡ Ok (string_bytes password)) × ConversationEnds
        (prompt_call R.Source W.Sink prompt.old prompt.new) (choosing_steps first second) (Ok tt)) }
    ensures refused { IfErr result (λ e. (first : List ℕ) × (second : List ℕ)
        × ConversationEnds (prompt_call R.Source W.Sink prompt.old prompt.new)
        (choosing_steps first second) (Err e)) }
{
    prompt.say("Please enter a password to protect the secret key.\n")?;
    let password = get_password(alloc, prompt, "Password: ")?;
    let again = get_password(alloc, prompt, "Password (one more time): ")?;
    if password != again {
        return Err(NamedFault::PasswordsDiffer.into());
    }
    Ok(password)
}

// Makes a key pair that is encrypted with the password, and reports the derivation on the prompt.
#[tactic(auto, unfolding(crate::specs::Generation::sealing_text, crate::specs::Sealing::done_text))]
fn seal_with_reports<S: Scheme, R: Source, W: Sink>(
    alloc: Global,
    scheme: &S,
    drawn: &Drawn,
    password: &[u8],
    prompt: &mut Prompt<R, W>,
) -> Result<KeyPair>
    ensures conversation_ends { OnOk result
        (ConversationEnds (prompt_call R.Source W.Sink prompt.old prompt.new) sealing_steps (Ok tt)) }
    ensures sealed { IfOk result
        (λ pair. IsSealedOf (S.public_of scheme.now) drawn.now.seed drawn.now.keynum drawn.now.salt
        password.now pair.pk pair.sk) }
    ensures refused { IfErr result
        (λ e. ConversationEnds (prompt_call R.Source W.Sink prompt.old prompt.new) sealing_steps (Err e)) }
{
    prompt.say("Deriving a key from the password in order to encrypt the secret key... ")?;
    let pair = make_sealed_pair(alloc, scheme, drawn, password)?;
    prompt.say("done\n")?;
    Ok(pair)
}

// Writes the raw bytes of both keys.
fn write_bytes<P: Sink, K: Sink>(
    alloc: Global,
    pk_sink: &mut P,
    sk_sink: &mut K,
    pair: &KeyPair,
) -> Result<()>
    ensures public { OnOk result
        (SinkCompletesPart (sink_call P.Sink pk_sink.old pk_sink.new) (public_key_bytes pair.now.pk)) }
    ensures secret { OnOk result
        (SinkCompletesPart (sink_call K.Sink sk_sink.old sk_sink.new) (secret_key_bytes pair.now.sk)) }
    ensures refused { IfErr result (PartsFail (sink_call P.Sink pk_sink.old pk_sink.new)
        (sink_call K.Sink sk_sink.old sk_sink.new)
        (public_key_bytes pair.now.pk) (secret_key_bytes pair.now.sk)) }
{
    let public = pair.pk.to_bytes(alloc)?;
    let secret = pair.sk.to_bytes(alloc)?;
    write_parts(pk_sink, sk_sink, &public, &secret)
}

// Writes the texts of both keys.
fn write_texts<P: Sink, K: Sink>(
    alloc: Global,
    pk_sink: &mut P,
    sk_sink: &mut K,
    pair: &KeyPair,
    comment: Option<&str>,
) -> Result<()>
    ensures public { OnOk result
        (SinkCompletesPart (sink_call P.Sink pk_sink.old pk_sink.new) (public_key_text pair.now.pk)) }
    ensures secret { OnOk result
        (SinkCompletesPart (sink_call K.Sink sk_sink.old sk_sink.new)
        (secret_key_text (option_copied comment.entry) pair.now.sk)) }
    ensures reads_back { IfSome comment.entry (λ s. LacksByte 10 s.now)
        → OnOk result
        (read_secret_key (secret_key_text (option_copied comment.entry) pair.now.sk) ≡ Ok pair.now.sk) }
    ensures refused { IfErr result (PartsFail (sink_call P.Sink pk_sink.old pk_sink.new)
        (sink_call K.Sink sk_sink.old sk_sink.new)
        (public_key_text pair.now.pk) (secret_key_text (option_copied comment.entry) pair.now.sk)) }
{
    let public = pair.pk.to_box(alloc)?.into_string();
    let secret = pair.sk.to_box(alloc, comment)?.into_string();
    write_parts(pk_sink, sk_sink, public.as_bytes(), secret.as_bytes())
}

// Writes both parts of a key pair. The public part is flushed before the secret part is written.
fn write_parts<P: Sink, K: Sink>(
    pk_sink: &mut P,
    sk_sink: &mut K,
    public: &[u8],
    secret: &[u8],
) -> Result<()>
    ensures public { OnOk result
        (SinkCompletesPart (sink_call P.Sink pk_sink.old pk_sink.new) public.now) }
    ensures secret { OnOk result
        (SinkCompletesPart (sink_call K.Sink sk_sink.old sk_sink.new) secret.now) }
    ensures refused { IfErr result (λ e. (e ≡ Named WritingFailed)
        × SinksFail (sink_call P.Sink pk_sink.old pk_sink.new) (sink_call K.Sink sk_sink.old sk_sink.new)
        public.now secret.now) }
{
    write_part(pk_sink, public)?;
    write_part(sk_sink, secret)
}

fn write_part<W: Sink>(sink: &mut W, part: &[u8]) -> Result<()>
    ensures part_received { OnOk result (SinkCompletesPart (sink_call W.Sink sink.old sink.new) part.now) }
    ensures failed { OnErr result (SinkFailsAtPart (sink_call W.Sink sink.old sink.new) part.now) }
    ensures refused { IfErr result (λ e. e ≡ Named WritingFailed) }
{
    put_and_flush(sink, part).map_err(|_| NamedFault::WritingFailed.into())
}

// Makes the key pair of a seed and a key ID, with the secret key encrypted.
pub(crate) fn make_sealed_pair<S: Scheme>(
    alloc: Global,
    scheme: &S,
    drawn: &Drawn,
    password: &[u8],
) -> Result<KeyPair>
    ensures sealed { IfOk result
        (λ pair. IsSealedOf (S.public_of scheme.now) drawn.now.seed drawn.now.keynum drawn.now.salt
        password.now pair.pk pair.sk) }
    ensures only_out_of_memory { IfErr result (λ e. e ≡ Named OutOfMemory) }
{
    let KeyPair { pk, sk } = make_pair(scheme, &drawn.seed, drawn.keynum);
    let sealing = Sealing {
        salt: drawn.salt,
        operations_limit: OPSLIMIT,
        memory_limit: MEMLIMIT,
    };
    let sk = sk.seal_by(alloc, password, sealing, 1)?;
    Ok(KeyPair { pk, sk })
}

// Generates the random bytes for an encrypted key pair: the seed, the key ID and the salt.
#[tactic(auto, using(crate::proofs::ErrorsAndPrefixes::removed_after_consumed))]
pub(crate) fn draw_with_salt<Z: RandomSource>(random: &mut Z) -> Result<Drawn>
    ensures drawn { IfOk result
        (λ z. HasDrawn (random_call Z.RandomSource random.old random.new)
        (z.seed ++ z.keynum ++ z.salt)) }
    ensures lengths { IfOk result (λ z. AreSeedAndKeynum z.seed z.keynum) }
    ensures salt { IfOk result (λ z. length z.salt ≡ 32) }
    ensures no_new_fault { OnOk result (Z.random_faults random.new ≡ Z.random_faults random.old) }
    ensures refused { IfErr result
        (HasFailed RandomSourceFailed Z.random_faults random.old random.new) }
    ensures prefix_removed { PrefixIsRemoved (Z.random_ahead random.old) (Z.random_ahead random.new) }
{
    let (seed, keynum) = draw_two(random)?;
    let salt = draw(random)?;
    Ok(Drawn { seed, keynum, salt })
}

// Makes the key pair of a seed and a key ID, with the secret key not encrypted.
fn make_pair<S: Scheme>(scheme: &S, seed: &[u8; 32], keynum: [u8; 8]) -> KeyPair
    ensures public { result.pk ≡ public_key_of (S.public_of scheme.now) seed.now keynum }
    ensures secret { result.sk ≡ unsealed_key keynum (secret_of (S.public_of scheme.now) seed.now) }
{
    let (secret, public) = scheme.keypair(seed);
    KeyPair {
        pk: PublicKey {
            sig_alg: SIGALG,
            keynum_pk: KeynumPK { keynum, pk: public },
        },
        sk: SecretKey::from_parts(keynum, secret),
    }
}
