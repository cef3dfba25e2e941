// An answerer that closes files that were removed, once its answer has left.
ghost use Rattle.std.specs.Prelude.{◌≡◌};

use canvas_folder::Removed;
use canvas_judge::Message;
use canvas_nodes::Answerer;
use std::alloc::AllocError;
use std::marker::Model;

/// Answers as another does, and closes a file that was removed, if there is one, once the answer has left. Contracts see it as that other.
pub(crate) struct Closing<A: Answerer + Drop> {
    answerer: A,
    removed: Removed,
}

impl<A: Answerer + Drop> Drop for Closing<A> {
    fn drop(self) {
        let Closing {
            answerer: _,
            removed: _,
        } = self;
    }
}

impl<A: Answerer + Drop> Model for Closing<A> {
    ghost Value = { A };

    ghost view = { λ c. c.answerer };
}

impl<A: Answerer + Drop> Closing<A> {
    /// Answers as this one does.
    pub(crate) fn new(answerer: A, removed: Removed) -> Closing<A>
        ensures { result ≡ answerer }
    {
        Closing { answerer, removed }
    }
}

impl<A: Answerer + Drop> Answerer for Closing<A> {
    ghost gives = { A.gives };

    fn answer(&mut self, message: Message) -> Result<Vec<Message>, AllocError> {
        self.answerer.answer(message)
    }

    fn sent(&mut self) {
        self.answerer.sent();
        self.removed.close();
    }
}
