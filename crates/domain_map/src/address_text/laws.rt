//! What the definitions say of each other, for all texts, addresses and prefixes.

ghost use Rattle.std.specs.Prelude.{◌≡◌, List, ℕ, Some};
ghost use Rattle.domain_map.specs.declared.address_text.address.Address.{Address};
ghost use Rattle.domain_map.specs.address_text.Address.{IsAddress, IsAddressText, address_text, address_of_text};
ghost use Rattle.domain_map.specs.address_text.Prefix.{AddressBlock, IsBlock, IsPrefixText, prefix_text};

/// Of the text of an address, that address is what is computed.
pub fn address_texts_compute()
    ensures { (text : List ℕ) (a : Address) → IsAddressText text a → address_of_text text ≡ Some a }
{}

/// What is computed of a text is the address of that text.
pub fn computed_addresses_are_of_the_text()
    ensures { (text : List ℕ) (a : Address) → address_of_text text ≡ Some a → IsAddressText text a }
{}

/// A text is the text of one address at most.
pub fn a_text_has_one_address()
    ensures { (text : List ℕ) (a b : Address) → IsAddressText text a → IsAddressText text b
        → a ≡ b }
{}

/// An address's written form is a text of that address.
pub fn written_address_reads_back()
    ensures { (a : Address) → IsAddress a → IsAddressText (address_text a) a }
{}

/// A text is the text of one prefix at most.
pub fn a_text_has_one_prefix()
    ensures { (text : List ℕ) (a b : AddressBlock) → IsPrefixText text a → IsPrefixText text b
        → a ≡ b }
{}

/// A prefix's written form is a text of that prefix.
pub fn written_prefix_reads_back()
    ensures { (block : AddressBlock) → IsBlock block → IsPrefixText (prefix_text block) block }
{}
