//! Laws of the definitions of lines and replies. The functions do nothing: their contracts are the laws.

ghost use Rattle.std.specs.Prelude.{◌≡◌, ◌^◌, ◌<◌, ◌≤◌, ℕ, List, Result, Ok, length};
ghost use Rattle.zh_commands.specs.declared.lines.Line.{Line};
ghost use Rattle.zh_commands.specs.declared.lines.LineFault.{LineFault};
ghost use Rattle.zh_commands.specs.declared.replies.Reply.{Reply};
ghost use Rattle.zh_commands.specs.Replies.{reply_text, IsReply};
ghost use Rattle.zh_commands.specs.Lines.{spelling, IsRequest, ParsesAs, desk_of};

/// A text can be read in only one way.
pub fn one_reading()
    ensures { (bytes : List ℕ) (a b : Result Line LineFault) → ParsesAs bytes a → ParsesAs bytes b → a ≡ b }
{}

/// Different lines have different spellings. A spelling has at most 120 bytes and is read as its line. This holds for
/// the lines that can be read: their numbers are below 2^32, and a replacement number is at least 1.
pub fn one_spelling()
    ensures same { (a b : Line) → IsRequest a.request → IsRequest b.request → spelling a ≡ spelling b → a ≡ b }
    ensures short { (line : Line) → IsRequest line.request → length (spelling line) ≤ 120 }
    ensures read { (line : Line) → IsRequest line.request → ParsesAs (spelling line) (Ok line) }
{}

/// If a text can be read as a line, the desk under which it is answered (`desk_of`) is the desk of the line.
pub fn one_desk()
    ensures { (bytes : List ℕ) (line : Line) → ParsesAs bytes (Ok line) → desk_of bytes ≡ line.desk.number }
{}

/// The bytes of a reply determine its desk and the reply.
pub fn one_reply()
    ensures { (d e : ℕ) (a b : Reply) → d < 2 ^ 8 → e < 2 ^ 8 → IsReply a → IsReply b
        → reply_text d a ≡ reply_text e b → (d ≡ e) × (a ≡ b) }
{}
