//! The notation of flags.

use regress_base::types::Flags;

/// Returns the flags of these letters; `None` if one is not in `imsuv` or occurs twice.
pub fn parse_flags(letters: &str) -> Option<Flags> {
    let mut flags = Flags::default();
    for letter in letters.chars() {
        let flag = match letter {
            'i' => &mut flags.icase,
            'm' => &mut flags.multiline,
            's' => &mut flags.dot_all,
            'u' => &mut flags.unicode,
            'v' => &mut flags.unicode_sets,
            _ => return None,
        };
        if *flag {
            return None;
        }
        *flag = true;
    }
    Some(flags)
}
