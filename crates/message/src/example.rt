// The example of RFC 9185, section 7.
ghost use Rattle.std.specs.Prelude.{◌≡◌, [], ◌∷◌};
ghost use Rattle.message.specs.Message.{encode, supported_profiles};

// SupportedProfiles of version 0 for both profiles.
#[tactic(auto, unfolding(crate::specs::Message::encode))]
pub fn two_profiles() -> [u8; 10]
    ensures { result ≡ encode (supported_profiles 0 (0x00 ∷ 0x09 ∷ 0x00 ∷ 0x0A ∷ [])) }
{
    [0x01, 0x00, 0x07, 0x00, 0x00, 0x04, 0x00, 0x09, 0x00, 0x0A]
}
