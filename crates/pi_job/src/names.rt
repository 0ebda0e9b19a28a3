// Names of a job, and which of them may stand beside which.

ghost use Rattle.std.specs.Prelude.{◌≡◌};
ghost use Rattle.pi_job.specs.Job.{same_name, is_dex_name, is_img_name, is_selection, has_img, has_name, is_img, is_taken, names_apart};

use crate::job::{ImageLine, Word};

/// Whether a name is one of a DEX file.
pub(crate) fn is_dex_name(name: &str) -> bool
    ensures { result ≡ is_dex_name name.now }
{
    match name.as_bytes() {
        [] => false,
        [first, ..] => *first != b'@' || name == "@core",
    }
}

/// Whether a name is one of an image file.
pub(crate) fn is_img_name(name: &str) -> bool
    ensures { result ≡ is_img_name name.now }
{
    match name.as_bytes() {
        [] => false,
        [first, ..] => *first != b'@',
    }
}

fn is_selection(name: &str, selection: &Option<Word>) -> bool
    ensures { result ≡ is_selection name.now selection.now }
{
    match selection {
        Some(word) => word.as_str() == name,
        None => false,
    }
}

fn has_img(name: &str, image: &ImageLine) -> bool
    ensures { result ≡ has_img name.now image.now }
{
    image.img.as_str() == name
}

fn has_name(name: &str, image: &ImageLine) -> bool
    ensures { result ≡ has_name name.now image.now }
{
    has_img(name, image) || image.dex.as_str() == name || is_selection(name, &image.selection)
}

/// Whether an image has that name.
pub(crate) fn is_img(images: &[ImageLine], name: &str) -> bool
    ensures { result ≡ is_img images.now name.now }
{
    images.iter().any(|image| has_img(name, image))
}

fn is_taken(images: &[ImageLine], name: &str) -> bool
    ensures { result ≡ is_taken images.now name.now }
{
    images.iter().any(|image| has_name(name, image))
}

/// Whether the names of an image line may stand behind those of others.
pub(crate) fn names_apart(job: &str, images: &[ImageLine], image: &ImageLine) -> bool
    ensures { result ≡ names_apart job.now images.now image.now }
{
    let img = image.img.as_str();
    if img == job || is_taken(images, img) || image.dex.as_str() == img {
        return false;
    }
    if is_selection(img, &image.selection) || is_img(images, image.dex.as_str()) {
        return false;
    }
    match &image.selection {
        Some(word) => !is_img(images, word.as_str()),
        None => true,
    }
}
