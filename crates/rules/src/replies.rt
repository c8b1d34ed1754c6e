// The answer to a question of a consistent sheet.
ghost use Rattle.std.specs.Prelude.{◌≡◌};
ghost use Rattle.rules.specs.Replies.{reply_number, IsReplyByte};

#[derive(Clone, Copy, Debug, PartialEq, Eq)]
pub enum Reply {
    Always,
    Never,
    Open,
}

// A byte that stands for no reply.
#[derive(Clone, Copy, Debug, PartialEq, Eq)]
pub struct NoReply(pub u8);

// Its number, as a reply byte.
impl From<Reply> for u8 {
    ghost from_gives = { λ reply number. number ≡ reply_number reply };

    fn from(reply: Reply) -> u8 {
        match reply {
            Reply::Always => 0,
            Reply::Never => 1,
            Reply::Open => 2,
        }
    }
}

// The reply of a reply byte.
impl TryFrom<u8> for Reply {
    type Error = NoReply;

    ghost try_from_gives = { IsReplyByte };

    fn try_from(byte: u8) -> Result<Reply, NoReply> {
        match byte {
            0 => Ok(Reply::Always),
            1 => Ok(Reply::Never),
            2 => Ok(Reply::Open),
            _ => Err(NoReply(byte)),
        }
    }
}
