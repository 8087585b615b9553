// What a team can do, the byte of it in a plan, and whether a book and a team have it.
ghost use Rattle.std.specs.Prelude.{◌≡◌, ◌&&◌, ◌+◌, ◌*◌, ◌≤◌, ltb};
ghost use Rattle.ground.specs.Digits.{bit};
ghost use Rattle.knowledge_acts.specs.Acts.{of_kind, or_none, plan_byte, act_of, offered};

use ground::bit_of;

// An act, by a post, on a setting: each by its index.
#[derive(Clone, Copy, Debug, PartialEq, Eq)]
pub enum Act {
    // the setting is set to the value
    Set { setting: u8, post: u8, value: bool },
    // the setting's present value is read
    Look { setting: u8, post: u8 },
}

// How many settings and posts a byte can name, and how many bytes the acts of one kind take.
const SETTINGS: u8 = ground::SETTINGS_MOST as u8;

const POSTS: u8 = ground::POSTS_MOST as u8;

const KIND: u8 = SETTINGS * POSTS;

// An act by its kind: 0 set false, 1 set true, 2 look.
fn of_kind(kind: u8, setting: u8, post: u8) -> Act
    ensures { result ≡ of_kind kind setting post }
{
    match kind {
        0 | 1 => Act::Set {
            setting,
            post,
            value: kind == 1,
        },
        _ => Act::Look { setting, post },
    }
}

// The byte of an act of this kind, one of the three; 0 past the seven settings or the eight posts.
fn byte_of(kind: u8, setting: u8, post: u8) -> u8
    requires { kind ≤ 2 }
    ensures { result ≡ or_none (ltb setting 7 && ltb post 8) (1 + (kind * 7 + setting) * 8 + post) }
{
    if SETTINGS <= setting || POSTS <= post {
        return 0;
    }
    1 + (kind * SETTINGS + setting) * POSTS + post
}

// Whether a book of n settings has the setting and the team has the post.
fn offers(n: u8, team: u8, setting: u8, post: u8) -> bool
    ensures { result ≡ ltb setting n && bit team post }
{
    setting < n && bit_of(team, post)
}

impl Act {
    // The largest byte of an act: three kinds of 56, 168.
    pub const LAST: u8 = 3 * KIND;

    // The act that a byte names; none for 0, which is a stop, and for what is past the largest act.
    pub fn of_byte(byte: u8) -> Option<Act>
        ensures { result ≡ act_of byte }
    {
        if byte == 0 || Act::LAST < byte {
            return None;
        }
        let place = byte - 1;
        Some(of_kind(place / KIND, place / POSTS % SETTINGS, place % POSTS))
    }

    // The act's byte; 0, which names no act, for a setting past the seven or a post past the eight.
    pub fn byte(self) -> u8
        ensures { result ≡ plan_byte self }
    {
        match self {
            Act::Set {
                setting,
                post,
                value,
            } => byte_of(u8::from(value), setting, post),
            Act::Look { setting, post } => byte_of(2, setting, post),
        }
    }

    // Whether it is an act of a book with n settings and of this team: bit q for the post with index q.
    pub fn offered(self, n: u8, team: u8) -> bool
        ensures { result ≡ offered n team self }
    {
        match self {
            Act::Set { setting, post, .. } | Act::Look { setting, post } => offers(
                n, team, setting, post,
            ),
        }
    }
}
