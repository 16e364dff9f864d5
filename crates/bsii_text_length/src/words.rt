// Encoded words: most are short, so that few tests find how long they are.
ghost use Rattle.std.specs.Prelude.{◌≡◌, ◌<◌, length};
ghost use Rattle.bsii_text_length.specs.Words.{spelling, encoded_text};

// Words below 38^6.
fn short_length(n: u64) -> usize
    requires { n < 3010936384 }
    ensures { result ≡ length (spelling n) }
{
    if n < 54872 {
        if n < 38 {
            if n == 0 {
                return 0;
            }
            return 1;
        }
        if n < 1444 {
            return 2;
        }
        return 3;
    }
    if n < 2085136 {
        return 4;
    }
    if n < 79235168 {
        return 5;
    }
    6
}

// How many characters there are: one for each power of 38 that the word reaches.
pub fn word_length(n: u64) -> usize
    ensures { result ≡ length (spelling n) }
{
    if n < 3010936384 {
        return short_length(n);
    }
    if n < 165216101262848 {
        if n < 114415582592 {
            return 7;
        }
        if n < 4347792138496 {
            return 8;
        }
        return 9;
    }
    if n < 6278211847988224 {
        return 10;
    }
    if n < 238572050223552512 {
        return 11;
    }
    if n < 9065737908494995456 {
        return 12;
    }
    13
}

// A word's low 63 bits, as a value.
pub fn encoded_length(word: u64) -> usize
    ensures { result ≡ length (encoded_text word) }
{
    if word == 0 {
        return 2;
    }
    word_length(word)
}
