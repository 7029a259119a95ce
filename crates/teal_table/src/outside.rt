//! Codes that the public table has and this machine does not.

ghost use Rattle.std.specs.Prelude.{◌≡◌};
ghost use Rattle.std.specs.Option.{option_copied, option_map};
ghost use Rattle.teal_table.specs.LeftOut.{left_out_at};

/// The public name of an opcode that this machine leaves out: it has no Keccak hash and no signatures, its ledger holds
/// no amounts or assets, and `arg` belongs to logic signatures.
#[tactic(auto, unfolding(crate::specs::LeftOut::left_out_at))]
pub fn left_out(code: u8) -> Option<&'static str>
    ensures { option_map (λ name. name.now) result ≡ left_out_at code }
{
    match code {
        0x02 => Some("keccak256"),
        0x04 => Some("ed25519verify"),
        0x2c => Some("arg"),
        0x2d => Some("arg_0"),
        0x2e => Some("arg_1"),
        0x2f => Some("arg_2"),
        0x30 => Some("arg_3"),
        0x60 => Some("balance"),
        0x70 => Some("asset_holding_get"),
        0x71 => Some("asset_params_get"),
        0x78 => Some("min_balance"),
        _ => None,
    }
}
