// What is kept of a history may move to another thread, where its values and its entries may. The check proves it here.
use crate::led::Led;
use crate::tail::Tail;

fn is_send<T: Send>(_value: &T) {}

fn tails_cross_threads<B: Led + Send>(tail: &Tail<B>)
where
    B::Entry: Send,
{
    is_send(tail);
}
