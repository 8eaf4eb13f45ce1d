ghost use Rattle.std.specs.Prelude.{◌≡◌, ◌+◌, ◌≤◌, ◌⊎◌, length};
ghost use Rattle.capture.specs.Numbers.{half, word};

/// The order in which the writer of a file put the bytes of a number.
#[derive(Clone, Copy, PartialEq, Eq, Debug)]
pub enum ByteOrder {
    Big,
    Little,
}

impl ByteOrder {
    /// The number of `N` bytes at `at`.
    pub(crate) fn number_at<const N: usize>(self, bytes: &[u8], at: usize) -> u32
        requires width { (N ≡ 2) ⊎ (N ≡ 4) }
        requires within { at + N ≤ length bytes.now }
        ensures half { N ≡ 2 → result ≡ half self bytes.now at }
        ensures word { N ≡ 4 → result ≡ word self bytes.now at }
    {
        let bytes = &bytes[at..at + N];
        let mut four = [0; 4];
        match self {
            ByteOrder::Big => {
                four[4 - N..].copy_from_slice(bytes);
                u32::from_be_bytes(four)
            }
            ByteOrder::Little => {
                four[..N].copy_from_slice(bytes);
                u32::from_le_bytes(four)
            }
        }
    }
}
