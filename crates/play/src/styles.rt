// The names of the styles.
ghost use Rattle.std.specs.Prelude.{◌≡◌, Some, None, codes, ◌≢◌};

// In the order of their numbers.
pub const STYLES: [&str; 3] = ["head", "body", "quote"];

// The number of the style that a word names, if it names one.
pub fn style_named(word: &str) -> Option<u8>
    ensures head_is_0 { word.now ≡ codes "head" → result ≡ Some 0 }
    ensures body_is_1 { word.now ≡ codes "body" → result ≡ Some 1 }
    ensures quote_is_2 { word.now ≡ codes "quote" → result ≡ Some 2 }
    ensures others_are_none { (word.now ≢ codes "head") → (word.now ≢ codes "body") → (word.now ≢ codes "quote") → result ≡ None }
{
    STYLES
        .iter()
        .position(|name| *name == word)
        .map(|style| style as u8)
}
