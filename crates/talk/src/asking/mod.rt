// The lines of a talk that are no trace's: calls on its session, each a template.
ghost use Rattle.std.specs.Prelude.{◌≡◌};
ghost use Rattle.talk.specs.Command.{command_of, cut_command};

use text::templates::fit;

// What a line asks of the session, its numbers cut where they are past every bound; or that it asks nothing.
#[derive(Clone, Copy)]
pub enum Command {
    Suppose { first: u32, second: u32 },
    Ask { first: u32, second: u32 },
    TakeBack,
    Waiting,
    Model(u32),
    Nothing,
}

// The call that a line makes, if it makes one.
pub fn command_of(line: &[u8]) -> Command
    ensures { result ≡ cut_command (command_of line.now) }
{
    if let Some(pair) = fit(b"suppose # #", line, 0) {
        return Command::Suppose {
            first: pair[0],
            second: pair[1],
        };
    }
    if let Some(pair) = fit(b"ask # #", line, 0) {
        return Command::Ask {
            first: pair[0],
            second: pair[1],
        };
    }
    if let Some(model) = fit(b"model #", line, 0) {
        return Command::Model(model[0]);
    }
    if fit(b"take back", line, 0).is_some() {
        return Command::TakeBack;
    }
    if fit(b"waiting", line, 0).is_some() {
        return Command::Waiting;
    }
    Command::Nothing
}
