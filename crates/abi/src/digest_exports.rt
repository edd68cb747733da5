// digest and digest_text, exported to C.
ghost use Rattle.std.specs.Prelude.{◌≡◌, length};
ghost use Rattle.sha256.specs.Sha256.{digest_text_refusal, digest_text_buffer};
ghost use Rattle.query_digest.specs.Digest.{digest_refusal, digest_buffer};

// Writes the SHA-256 of a tree's text to the first 32 bytes of `out`.
pub fn bt_digest(tree: &[u8], out: &mut [u8]) -> u32
    ensures value { result ≡ digest_refusal tree.now (length out.old) }
    ensures out_after { out.new ≡ digest_buffer tree.now out.old }
{
    refusals::result_refusal(query_digest::digest(tree, out))
}

// Writes the SHA-256 of a text to the first 32 bytes of `out`.
pub fn bt_digest_text(text: &[u8], out: &mut [u8]) -> u32
    ensures value { result ≡ digest_text_refusal (length out.old) }
    ensures out_after { out.new ≡ digest_text_buffer text.now out.old }
{
    refusals::result_refusal(sha256::digest_text(text, out))
}
