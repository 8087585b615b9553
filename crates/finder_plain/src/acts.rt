// The tries, and where they lead. Posts whose acts have the same outcome are one try: a try is an act by
// whichever post.
ghost use Rattle.std.specs.Prelude.{◌≡◌, ◌/◌, ◌%◌};
ghost use Rattle.knowledge_acts.specs.Acts.{of_kind};
ghost use Rattle.finder_plain.specs.Tries.{by_post};

use knowledge_acts::Act;

// How many tries a setting has: set false, set true, look.
pub(crate) const KINDS: u8 = 3;

// The try with this number: three for each setting. For this crate alone.
pub(crate) fn try_of(number: u8) -> Act
    ensures { result ≡ of_kind (number % 3) (number / 3) 0 }
{
    let setting = number / KINDS;
    let post = 0;
    match number % KINDS {
        0 => Act::Set {
            setting,
            post,
            value: false,
        },
        1 => Act::Set {
            setting,
            post,
            value: true,
        },
        _ => Act::Look { setting, post },
    }
}

// The same act by another post. For this crate alone.
pub(crate) fn by_post(act: Act, q: u8) -> Act
    ensures { result ≡ by_post act q }
{
    match act {
        Act::Set { setting, value, .. } => Act::Set {
            setting,
            post: q,
            value,
        },
        Act::Look { setting, .. } => Act::Look { setting, post: q },
    }
}
