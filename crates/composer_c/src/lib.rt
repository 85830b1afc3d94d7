// The composer's C archive, as host/composer.h says.
#![tactic(auto)]

ghost use Rattle.std.specs.Prelude.{◌≡◌, length};
ghost use Rattle.ari.specs.Limits.{gate_limits};
ghost use Rattle.text.specs.Answer.{lent};
ghost use Rattle.text_write.specs.Written.{written_of, room_after};
ghost use Rattle.answer_codes.specs.Code.{text_code};
ghost use Rattle.composer.specs.Compose.{nonce_of, compose};

#[unsafe(no_mangle)]
pub extern "C" fn composer_compose(
    kind: u64,
    number: u64,
    nonce: &[u8],
    texts: &[u8],
    out: &mut [u8],
) -> u64
    ensures value { result ≡ text_code (written_of (lent (length out.old) (compose gate_limits (nonce_of kind number nonce.now) texts.now))) }
    ensures out_after { out.new ≡ room_after out.old (lent (length out.old) (compose gate_limits (nonce_of kind number nonce.now) texts.now)) }
{
    composer::composer_compose(kind, number, nonce, texts, out)
}
