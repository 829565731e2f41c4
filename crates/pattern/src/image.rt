// The window's bytes, and the body of `PC` that stands for them.
ghost use Rattle.std.specs.Prelude.{ℕ, ◌≡◌, ◌≢◌, ◌<◌, IfSome, IsNone, get_or, length};
ghost use Rattle.pattern.specs.Image.{trim, ends_in_zero};

// Whether `body` is not empty and its last byte is zero.
#[tactic(auto, unfolding(crate::specs::Image::ends_in_zero))]
pub(crate) fn ends_in_zero(body: &[u8]) -> bool
    ensures { result ≡ ends_in_zero body.now }
{
    body.last() == Some(&0)
}

// The place of the last byte of `image` that is not zero.
fn last_nonzero(image: &[u8]) -> Option<usize>
    ensures found { IfSome result (λ i. (i < length image.now) × (get_or image.now i 0 ≢ 0)) }
    ensures zeros { IfSome result (λ i. (k : ℕ) → i < k → k < length image.now → get_or image.now k 0 ≡ 0) }
    ensures none { IsNone result → (k : ℕ) → k < length image.now → get_or image.now k 0 ≡ 0 }
{
    image.iter().rposition(|byte| *byte != 0)
}

// `image` without its trailing zeros.
#[tactic(auto, using(crate::specs::ImageLaws::trim_to, crate::specs::ImageLaws::trim_all))]
pub(crate) fn trim(image: &[u8]) -> &[u8]
    ensures { result.now ≡ trim image.now }
{
    match last_nonzero(image) {
        Some(last) => &image[..=last],
        None => &[],
    }
}
